//! The native of this host: it prices parcels by weight. main.rt hands it in.

ghost use Rattle.std.specs.Prelude.{◌≡◌, true, map, IfOk};
ghost use Rattle.bb_shell.specs.Roster.{all_open};
ghost use Rattle.bb_shell_host.specs.Pricer.{price_of, weight_of};

use bb_schema::UnitId;
use bb_shell::{Ask, Memory, NativeSource, Text, Value, View};
use std::alloc::Global;

/// Asks to set the slot `price` of its unit to three times its slot `weight`. At its close it reports how many units it
/// priced.
#[derive(Drop)]
pub(crate) struct Pricer {
    count: i64,
    is_open: bool,
}

impl NativeSource for Pricer {
    ghost use Rattle.std.specs.Prelude.{[], ◌∷◌, ◌+ℤ◌, pos, codes, map, slice_index_or};
    ghost use Rattle.std.specs.Int.{saturate_signed, w64};
    ghost use Rattle.bb_shell.specs.Ask.TheVariants.{Set};
    ghost use Rattle.bb_shell.specs.Value.TheVariants.{Int};
    ghost use Rattle.bb_shell_host.specs.Pricer.{price_of, weight_of};

    ghost meaning = { λ pricer. record {
      name = codes "pricer";
      held = pricer.count ∷ [];
      is_open = pricer.is_open;
      asks = λ held unit seen. Set unit (codes "price") (Int (price_of (weight_of seen unit))) ∷ [];
      next = λ held unit seen. map (λ count. saturate_signed w64 (count +ℤ pos 1)) held;
      closing = λ held. slice_index_or held 0 (pos 0);
    } };

    fn name(&self) -> &str {
        "pricer"
    }

    fn act(&mut self, alloc: Global, unit: UnitId, view: &View<'_>) -> Result<Vec<Ask>, Memory> {
        let price = price_of(weight_of(view, unit));
        let mut asks = Vec::new(alloc);
        asks.push(Ask::Set {
            unit,
            slot: Text::from_str(alloc, "price")?,
            value: Value::Int(price),
        })?;
        self.count = self.count.saturating_add(1);
        Ok(asks)
    }

    fn close(&mut self) -> i64 {
        self.is_open = false;
        self.count
    }
}

// The weight of a unit, or 0 if it has none.
fn weight_of(view: &View<'_>, unit: UnitId) -> i64
    ensures { result ≡ weight_of view.now unit }
{
    if !view.live(unit) {
        return 0;
    }
    let class = view.class_of(unit);
    let Some(slot) = view.schema().slot(class, "weight") else {
        return 0;
    };
    if !view.has(unit, slot) {
        return 0;
    }
    match view.get(unit, slot) {
        Value::Int(weight) => *weight,
        _ => 0,
    }
}

// Three times a weight, at most the maximum number.
fn price_of(weight: i64) -> i64
    ensures { result ≡ price_of weight }
{
    weight.saturating_mul(3)
}

/// Returns one open pricer.
pub(crate) fn pricers(alloc: Global) -> Result<Vec<Pricer>, Memory>
    ensures { IfOk result (λ natives. all_open (map ⟦<Pricer as NativeSource>⟧.meaning natives.items) ≡ true) }
{
    let mut natives = Vec::new(alloc);
    natives.push(Pricer {
        count: 0,
        is_open: true,
    })?;
    Ok(natives)
}
