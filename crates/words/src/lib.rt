// What the program's arguments ask for, and what the program makes of what is read and written.
#![tactic(auto)]

ghost use Rattle.std.specs.Prelude.{List, [], ◌∷◌, ℕ, ◌≡◌, Some};
ghost use Rattle.decimal.specs.Decimal.{Says};
ghost use Rattle.words.specs.Running.{reads_for, said};
ghost use Rattle.words.specs.Words.{IsWord, Asks, AsksOnly, words_of};

// A first word.
#[derive(Clone, Copy)]
enum Word {
    Renumber,
    Chain,
    Followed,
    Size,
    Value,
    Help,
}

// What is asked for.
#[derive(Clone, Copy)]
pub enum Order {
    Report,
    Renumber,
    Chain(u16, u16),
    Followed(u16, u16),
    Size(u16),
    Value(u16),
    Help,
}

// Which word it is, if it is one.
fn word_of(word: &[u8]) -> Option<Word>
    ensures { IsWord word.now result }
{
    match word {
        b"renumber" => Some(Word::Renumber),
        b"chain" => Some(Word::Chain),
        b"followed" => Some(Word::Followed),
        b"size" => Some(Word::Size),
        b"value" => Some(Word::Value),
        b"help" | b"--help" | b"-h" => Some(Word::Help),
        _ => None,
    }
}

// What a word without others asks for.
fn alone(word: Word) -> Option<Order>
    ensures { (w : List ℕ) → IsWord w (Some word) → Asks (w ∷ []) result }
{
    match word {
        Word::Renumber => Some(Order::Renumber),
        Word::Chain => None,
        Word::Followed => None,
        Word::Size => None,
        Word::Value => None,
        Word::Help => Some(Order::Help),
    }
}

// What a word asks for with one other behind it.
fn ahead(word: Word, number: u16) -> Option<Order>
    ensures { (w x : List ℕ) → IsWord w (Some word) → Says x number → Asks (w ∷ x ∷ []) result }
{
    match word {
        Word::Size => Some(Order::Size(number)),
        Word::Value => Some(Order::Value(number)),
        _ => None,
    }
}

// What a word asks for with two others behind it.
fn between(word: Word, from: u16, to: u16) -> Option<Order>
    ensures { (w x y : List ℕ) → IsWord w (Some word) → Says x from → Says y to → Asks (w ∷ x ∷ y ∷ []) result }
{
    match word {
        Word::Chain => Some(Order::Chain(from, to)),
        Word::Followed => Some(Order::Followed(from, to)),
        _ => None,
    }
}

// What the arguments ask for, if there is such a thing. There are `count` of them, the program's own name among them.
pub fn order_of(count: usize, first: &[u8], second: &[u8], third: &[u8]) -> Option<Order>
    ensures asks { Asks (words_of count first.now second.now third.now) result }
    ensures asks_only { AsksOnly (words_of count first.now second.now third.now) result }
{
    match count {
        0 | 1 => Some(Order::Report),
        2 => alone(word_of(first)?),
        3 => ahead(word_of(first)?, decimal::parse_name(second)?),
        4 => between(
            word_of(first)?,
            decimal::parse_name(second)?,
            decimal::parse_name(third)?,
        ),
        _ => None,
    }
}

// What is said on standard error.
#[derive(Clone, Copy)]
pub enum Message {
    Arguments,
    Unread,
    Unwritten,
}

// Whether an order is for a bundle. Wrong arguments are no order.
pub fn reads_bundle(order: Option<Order>) -> bool
    ensures { result ≡ reads_for order }
{
    !matches!(order, None | Some(Order::Help))
}

// What is said, if something is, where as many bytes were read, or none where reading failed, and all of the output was written or not.
pub fn message_of(order: Option<Order>, read: Option<usize>, written: bool) -> Option<Message>
    ensures { result ≡ said order read written }
{
    if order.is_none() {
        return Some(Message::Arguments);
    }
    match (read, written) {
        (None, _) => Some(Message::Unread),
        (Some(_), true) => None,
        (Some(_), false) => Some(Message::Unwritten),
    }
}
