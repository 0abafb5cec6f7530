ghost use Rattle.std.specs.Prelude.{◌≡◌, ℕ, ◌≤◌, length, IfOk, string_bytes};

use crate::fault::SheetFault;
use crate::line::line_of;
use crate::read::read_row;
use crate::tally::Tally;
use crate::verb::Verb;
use config::service::ConfigService;
use floor::floor::Floor;
use machine::tables::Tables;
use rows::row::rows_of;
use service::Service;
use std::alloc::{AllocError, Global};

/// How many bytes a sheet may have.
pub const MOST_BYTES: usize = 65_536;

/// A floor with its tables and its configuration service, on which sheets are played.
// Its parts are open, since a sheet may be played on any floor, over any tables.
#[derive(Drop)]
pub struct Player<S: Service, C: ConfigService> {
    pub floor: Floor,
    pub tables: Tables<S>,
    pub config: C,
}

impl<S: Service, C: ConfigService> Player<S, C> {
    ghost use Rattle.service.specs.Meant.{meant_by};
    ghost use Rattle.sheet.specs.Verbs.{verbs_by};
    ghost use Rattle.rows.specs.Sheet.{rows};
    ghost use Rattle.sheet.specs.Playing.{row_answer, row_after, RowsPlayed, Played};
    ghost use Rattle.sheet.specs.Seated.{world};
    ghost use Rattle.sheet.specs.Fresh.{fresh_world};

    /// A new floor over new tables, whose lists of entries hold `blank`.
    pub fn new(heap: Global, config: C, blank: S::Update) -> Result<Player<S, C>, AllocError>
    where
        C: Drop,
        ensures { IfOk result (λ p. world C.ConfigService.meaning p ≡ fresh_world (meant_by S.Service) blank (C.ConfigService.meaning config)) }
    {
        let tables = Tables::new(heap, blank)?;
        Ok(Player {
            floor: Floor::new(),
            tables,
            config,
        })
    }

    /// Plays one row.
    pub fn play_row<V: Verb<Command = S::Command>>(&mut self, row: &[u8]) -> Result<u32, SheetFault>
        ensures answer { result ≡ row_answer (meant_by S.Service) (verbs_by V.Verb) (world C.ConfigService.meaning self.old) row.now }
        ensures after { world C.ConfigService.meaning self.new ≡ row_after (meant_by S.Service) (verbs_by V.Verb) (world C.ConfigService.meaning self.old) row.now }
    {
        let call = read_row::<V>(row)?;
        Ok(
            self.floor
                .perform(&mut self.tables, &mut self.config, call)?,
        )
    }

    /// Plays a sheet, and writes its lines at the end of `out`. An error, where memory is wanting, leaves
    /// open what was played.
    pub fn play<V: Verb<Command = S::Command>>(
        &mut self,
        sheet: &[u8],
        out: &mut String,
    ) -> Result<Tally, AllocError>
        ensures { IfOk result (λ t. Played (meant_by S.Service) (verbs_by V.Verb) (world C.ConfigService.meaning self.old) sheet.now (string_bytes out.old) (world C.ConfigService.meaning self.new) (string_bytes out.new) t) }
    {
        if sheet.len() > MOST_BYTES {
            line_of(0, Err(SheetFault::TooLong)).write(out)?;
            return Ok(Tally::default());
        }
        self.play_rows::<V>(sheet, out)
    }

    // Plays the rows of a sheet that is not too long.
    fn play_rows<V: Verb<Command = S::Command>>(
        &mut self,
        sheet: &[u8],
        out: &mut String,
    ) -> Result<Tally, AllocError>
        requires { length sheet.now ≤ 65536 }
        ensures { IfOk result (λ t. RowsPlayed (meant_by S.Service) (verbs_by V.Verb) (world C.ConfigService.meaning self.old) (rows sheet.now) (string_bytes out.old) (world C.ConfigService.meaning self.new) (string_bytes out.new) t) }
    {
        let mut tally = Tally::default();
        for row in rows_of(sheet) {
            let answer = self.play_row::<V>(row);
            tally.count(answer);
            line_of(tally.rows, answer).write(out)?;
        }
        Ok(tally)
    }
}
