//! The native of the cases. Histories (histories.rt) run with it or without natives.

ghost use Rattle.std.specs.Prelude.{◌≡◌, true, map, IfOk};
ghost use Rattle.bb_moves.specs.Roster.{all_open};

use bb_moves::{Ask, NativeSource, UnitId, View};
use std::alloc::{AllocError, Global};

/// A native that asks to delete its unit, and says the number of its executions when it is closed.
#[derive(Drop)]
pub struct Reaper {
    count: i64,
    is_open: bool,
}

impl NativeSource for Reaper {
    ghost use Rattle.std.specs.Prelude.{[], ◌∷◌, ◌+ℤ◌, pos, codes, map, slice_index_or};
    ghost use Rattle.std.specs.Int.{saturate_signed, w64};
    ghost use Rattle.bb_shell.specs.Ask.TheVariants.{Delete};

    ghost meaning = { λ reaper. record {
      name = codes "reaper";
      held = reaper.count ∷ [];
      is_open = reaper.is_open;
      asks = λ held unit seen. Delete unit ∷ [];
      next = λ held unit seen. map (λ count. saturate_signed w64 (count +ℤ pos 1)) held;
      closing = λ held. slice_index_or held 0 (pos 0);
    } };

    fn name(&self) -> &str {
        "reaper"
    }

    fn act(
        &mut self,
        alloc: Global,
        unit: UnitId,
        _view: &View<'_>,
    ) -> Result<Vec<Ask>, AllocError> {
        let mut asks = Vec::new(alloc);
        asks.push(Ask::Delete { unit })?;
        self.count = self.count.saturating_add(1);
        Ok(asks)
    }

    fn close(&mut self) -> i64 {
        self.is_open = false;
        self.count
    }
}

/// Returns only the reaper, which was not executed yet, or no natives.
pub fn natives(alloc: Global, has_reaper: bool) -> Result<Vec<Reaper>, AllocError>
    ensures { IfOk result (λ natives. all_open (map ⟦<Reaper as NativeSource>⟧.meaning natives.items) ≡ true) }
{
    if !has_reaper {
        return Ok(Vec::new(alloc));
    }
    let mut natives = Vec::new(alloc);
    natives.push(Reaper {
        count: 0,
        is_open: true,
    })?;
    Ok(natives)
}
