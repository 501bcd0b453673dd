// The questions, and which of them a line asks. What a line asks is defined in specs/Questions.antt.
ghost use Rattle.std.specs.Prelude.{◌≡◌, Some};
ghost use Rattle.question.specs.Questions.{alone_asks, pair_asks, question_of, ticket_asks, ticket_in};

// A question: how a ticket stands, why it waits, which group two tickets share, how many units are free.
#[derive(Clone, Copy, Debug, PartialEq, Eq)]
pub enum Question {
    Lookup(u16),
    Why(u16),
    Common(u16, u16),
    Free,
}

// The ticket that a word says.
fn ticket(word: &[u8]) -> Option<u16>
    ensures { result ≡ ticket_in word.now }
{
    match words::number(word, 10, 65535, 0u8, 0u8) {
        Ok(ticket) => Some(ticket as u16),
        Err(_) => None,
    }
}

// ---- the questions by name: of nothing, of a ticket, of two
fn alone_asks(name: &[u8]) -> Option<Question>
    ensures { result ≡ alone_asks name.now }
{
    if check::same(name, b"free") {
        return Some(Question::Free);
    }
    None
}

fn ticket_asks(name: &[u8], ticket: u16) -> Option<Question>
    ensures { result ≡ ticket_asks name.now (Some ticket) }
{
    if check::same(name, b"lookup") {
        return Some(Question::Lookup(ticket));
    }
    if check::same(name, b"why") {
        return Some(Question::Why(ticket));
    }
    None
}

fn pair_asks(name: &[u8], first: u16, second: u16) -> Option<Question>
    ensures { result ≡ pair_asks name.now (Some first) (Some second) }
{
    if check::same(name, b"common") {
        return Some(Question::Common(first, second));
    }
    None
}

// ---- a line
// The question that a line asks, without its line feed.
pub fn question_of(line: &[u8]) -> Option<Question>
    ensures { result ≡ question_of line.now }
{
    let (name, rest) = words::next_word(line)?;
    let Some((first, rest)) = words::next_word(rest) else {
        return alone_asks(name);
    };
    let Some((second, rest)) = words::next_word(rest) else {
        return ticket_asks(name, ticket(first)?);
    };
    if words::next_word(rest).is_some() {
        return None;
    }
    pair_asks(name, ticket(first)?, ticket(second)?)
}
