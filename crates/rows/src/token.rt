ghost use Rattle.std.specs.Prelude.{◌≡◌, ◌==◌, ◌∷◌, if◌then◌else◌, Some, None, position};
ghost use Rattle.std.specs.Option.{option_map};
ghost use Rattle.std.specs.Iterator.{item_count};
ghost use Rattle.rows.specs.Sheet.{fields, fields_of, is_number, value_after, said_of};
ghost use Rattle.rows.specs.Left.{fields_left, YieldsField};
ghost use Rattle.rows.specs.Tokens.{said, part_of};

// A comma stands between two fields.
const COMMA: u8 = b',';

const MOST_DIGITS: usize = 9;

/// What a field says, with the part of the row's bytes that it is.
// Each variant holds the part: the form that docs/DECISIONS.md asks of tokens.
#[derive(Clone, Copy, Debug, PartialEq, Eq)]
pub enum Token<'a> {
    Letter { letter: char, part: &'a [u8] },
    Number { value: u32, part: &'a [u8] },
    Other { part: &'a [u8] },
}

// The number of 1 to 9 digits. A loop, since a fold does not show that the product fits.
fn number(part: &[u8]) -> Option<u32>
    ensures { result ≡ (if is_number part.now then Some (value_after 0 part.now) else None) }
{
    if part.is_empty() || part.len() > MOST_DIGITS {
        return None;
    }
    let mut value: u32 = 0;
    for b in part {
        if !b.is_ascii_digit() {
            return None;
        }
        value = value * 10 + u32::from(*b - b'0');
    }
    Some(value)
}

// What the field of these bytes says.
fn token_of(part: &[u8]) -> Token<'_>
    ensures said { said result ≡ said_of part.now }
    ensures part { part_of result ≡ part.now }
{
    if let [letter @ b'a'..=b'z'] = part {
        return Token::Letter {
            letter: *letter as char,
            part,
        };
    }
    match number(part) {
        Some(value) => Token::Number { value, part },
        None => Token::Other { part },
    }
}

// The place of the row's first comma.
fn first_comma(row: &[u8]) -> Option<usize>
    ensures { result ≡ position (λ b. b == 44) row.now }
{
    row.iter().position(|b| *b == COMMA)
}

/// A row's first field, and what follows its comma.
#[derive(Clone, Copy, Debug, PartialEq, Eq)]
pub struct Cut<'a> {
    pub first: Token<'a>,
    /// None where the row has no comma.
    pub rest: Option<&'a [u8]>,
}

/// The first field of a row, which every row has: that of an empty row is empty.
#[tactic(auto, using(crate::proofs::Steps::field_steps))]
pub fn first_field(row: &[u8]) -> Cut<'_>
    ensures said { said result.first ≡ said_of (part_of result.first) }
    ensures fields { fields row.now ≡ part_of result.first ∷ fields_of (option_map (λ x. x.now) result.rest) }
{
    let Some(at) = first_comma(row) else {
        return Cut {
            first: token_of(row),
            rest: None,
        };
    };
    Cut {
        first: token_of(&row[..at]),
        rest: Some(&row[at + 1..]),
    }
}

/// The fields of a row: the parts between its commas. An empty row has one empty field.
// An iterator of its own, since the type of a slice's `split` names a closure.
#[derive(Clone, Debug, Drop)]
pub struct Fields<'a> {
    /// What follows the comma after the last field taken, if there was one.
    pub rest: Option<&'a [u8]>,
}

impl<'a> Iterator for Fields<'a> {
    type Item = Token<'a>;

    ghost next_gives = { YieldsField };

    ghost remaining = { item_count fields_left };

    #[tactic(auto, using(crate::proofs::Steps::field_steps))]
    fn next(&mut self) -> Option<Token<'a>> {
        let Cut { first, rest } = first_field(self.rest?);
        self.rest = rest;
        Some(first)
    }
}

/// The fields of a row.
pub fn fields_of(row: &[u8]) -> Fields<'_>
    ensures { fields_left result ≡ fields row.now }
{
    Fields { rest: Some(row) }
}
