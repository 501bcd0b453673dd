// `generator`'s call for C, in a static library.
#![tactic(auto)]

ghost use Rattle.std.specs.Prelude.{◌≡◌};
ghost use Rattle.generator.specs.Workload.{returned, workload_answer, workload_out};

#[unsafe(no_mangle)]
pub extern "C" fn belgwyth_workload(seed: u32, count: u32, out: &mut [u8]) -> usize
    ensures answer { result ≡ returned (workload_answer seed count out.old) }
    ensures buffer { out.new ≡ workload_out seed count out.old }
{
    generator::belgwyth_workload(seed, count, out)
}
