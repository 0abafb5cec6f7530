ghost use Rattle.std.specs.Prelude.{◌≡◌, ℕ, None, IfSome, true, false, ◌+◌, ◌<◌, ◌≤◌, length, drop};
ghost use Rattle.std.specs.Iterator.{YieldsFirstBy, item_count};
ghost use Rattle.rows.specs.Left.{rows_left};
ghost use Rattle.rows.specs.Sheet.{ends_at, rows, row_length as length_of_row, printable};

// CR LF ends a row.
const CR: u8 = b'\r';

const LF: u8 = b'\n';

const FIRST_PRINTABLE: u8 = 33;

const LAST_PRINTABLE: u8 = 126;

// The place of the first CR LF.
fn first_end(sheet: &[u8]) -> Option<usize>
    ensures none { result ≡ None → (k : ℕ) → k + 1 < length sheet.now → ends_at sheet.now k ≡ false }
    ensures found { IfSome result (λ i. (i + 1 < length sheet.now) × (ends_at sheet.now i ≡ true)) }
    ensures first { IfSome result (λ i. (k : ℕ) → k < i → ends_at sheet.now k ≡ false) }
{
    sheet.windows(2).position(|pair| matches!(pair, [CR, LF]))
}

// The number of bytes before the first CR LF, or of all where there is none.
#[tactic(auto, using(crate::proofs::Steps::ends))]
fn row_length(sheet: &[u8]) -> usize
    ensures value { result ≡ length_of_row sheet.now }
    ensures within { result ≤ length sheet.now }
{
    first_end(sheet).unwrap_or(sheet.len())
}

// What follows the first `count` bytes; nothing where there are fewer.
fn after(bytes: &[u8], count: usize) -> &[u8]
    ensures { result.now ≡ drop count bytes.now }
{
    bytes.get(count..).unwrap_or(&[])
}

/// The rows of a sheet, each without its CR LF, which the last may lack.
#[derive(Clone, Debug, Drop)]
pub struct Rows<'a> {
    /// What no row has been taken of yet.
    pub left: &'a [u8],
}

impl<'a> Iterator for Rows<'a> {
    type Item = &'a [u8];

    ghost next_gives = { λ s r t. YieldsFirstBy (λ x. x.now) rows_left s r t × IfSome r (λ _. length t.left.now < length s.left.now) };

    ghost remaining = { item_count rows_left };

    #[tactic(auto, using(crate::proofs::Steps::row_steps))]
    fn next(&mut self) -> Option<&'a [u8]> {
        if self.left.is_empty() {
            return None;
        }
        let end = row_length(self.left);
        let row = &self.left[..end];
        self.left = after(self.left, end + 2);
        Some(row)
    }
}

/// The rows of a sheet; an empty sheet has none.
pub fn rows_of(sheet: &[u8]) -> Rows<'_>
    ensures { result.left.now ≡ sheet.now }
{
    Rows { left: sheet }
}

/// Whether each byte is printable, and no space.
pub fn is_printable(row: &[u8]) -> bool
    ensures { result ≡ printable row.now }
{
    row.iter()
        .all(|b| (FIRST_PRINTABLE..=LAST_PRINTABLE).contains(b))
}
