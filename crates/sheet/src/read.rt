ghost use Rattle.std.specs.Prelude.{◌≡◌, ℕ};
ghost use Rattle.rows.specs.Tokens.{said};
ghost use Rattle.rows.specs.Left.{fields_left};
ghost use Rattle.sheet.specs.Verbs.{verbs_by};
ghost use Rattle.sheet.specs.Reading.{number_in, one_number as one_number_in, two_numbers as two_numbers_in, verb_in as verb_said, order_of, read};

use crate::fault::SheetFault;
use crate::verb::Verb;
use machine::call::Call;
use rows::row::is_printable;
use rows::token::{Fields, Token, fields_of};

// Fields are taken apart by `let .. else`, each missing one with its fault: the form that
// docs/DECISIONS.md asks of the reader.

// The number that a field says.
fn number(field: Token<'_>) -> Result<u32, SheetFault>
    ensures { result ≡ number_in (said field.entry) }
{
    let Token::Number { value, .. } = field else {
        return Err(SheetFault::BadNumber);
    };
    Ok(value)
}

// The one number that the fields say, of which there must be one.
fn one_number(mut fields: Fields<'_>) -> Result<u32, SheetFault>
    ensures { result ≡ one_number_in (fields_left fields.entry) }
{
    let (Some(field), None) = (fields.next(), fields.next()) else {
        return Err(SheetFault::WrongCount);
    };
    number(field)
}

// The two numbers that the fields say, of which there must be two.
fn two_numbers(mut fields: Fields<'_>) -> Result<(u32, u32), SheetFault>
    ensures { result ≡ two_numbers_in (fields_left fields.entry) }
{
    let (Some(first), Some(second), None) = (fields.next(), fields.next(), fields.next()) else {
        return Err(SheetFault::WrongCount);
    };
    Ok((number(first)?, number(second)?))
}

// The verb that a field says.
fn verb_in<V: Verb>(field: Token<'_>) -> Result<V, SheetFault>
    ensures { result ≡ verb_said (verbs_by V.Verb) (said field.entry) }
{
    let Token::Letter { letter, .. } = field else {
        return Err(SheetFault::UnknownLetter);
    };
    V::of_letter(letter).ok_or(SheetFault::UnknownLetter)
}

// The arguments of an order: controller, serial, and a command's letter and number. Where the letter is there, it must
// be known whatever the count.
fn read_order<V: Verb>(mut fields: Fields<'_>) -> Result<Call<V::Command>, SheetFault>
    ensures { result ≡ order_of (verbs_by V.Verb) (fields_left fields.entry) }
{
    let (Some(controller), Some(serial), Some(letter)) = (
        fields.next(),
        fields.next(),
        fields.next(),
    ) else {
        return Err(SheetFault::WrongCount);
    };
    let verb: V = verb_in(letter)?;
    let (Some(value), None) = (fields.next(), fields.next()) else {
        return Err(SheetFault::WrongCount);
    };
    Ok(Call::Order {
        controller: number(controller)?,
        serial: number(serial)?,
        command: verb.command(number(value)?),
    })
}

/// What a row says.
pub fn read_row<V: Verb>(row: &[u8]) -> Result<Call<V::Command>, SheetFault>
    ensures { result ≡ read (verbs_by V.Verb) row.now }
{
    if !is_printable(row) {
        return Err(SheetFault::Unprintable);
    }
    let mut fields = fields_of(row);
    let Some(Token::Letter { letter, .. }) = fields.next() else {
        return Err(SheetFault::UnknownLetter);
    };
    match letter {
        'f' => {
            let (members, leader) = two_numbers(fields)?;
            Ok(Call::Start { members, leader })
        }
        'o' => read_order::<V>(fields),
        's' => {
            let controller = one_number(fields)?;
            Ok(Call::Settle { controller })
        }
        'h' => {
            let (envelope, controller) = two_numbers(fields)?;
            Ok(Call::Hand {
                envelope,
                controller,
            })
        }
        _ => Err(SheetFault::UnknownLetter),
    }
}
