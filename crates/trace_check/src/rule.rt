//! The rule of an entry's kind.
ghost use Rattle.std.specs.Prelude.{◌≡◌};
ghost use Rattle.trace_model.specs.Verdict.{rule_of};

use trace_model::{Entry, RuleName};

/// The rule that the entry has to keep.
pub fn rule_of(entry: &Entry) -> RuleName
    ensures { result ≡ rule_of entry.now }
{
    match entry {
        Entry::Send { .. } => RuleName::D9,
        Entry::Dropped { .. } => RuleName::D10,
        Entry::Shutter { .. } => RuleName::D11,
        Entry::Partial { .. } => RuleName::D12,
        Entry::Filled { .. } | Entry::Early { .. } | Entry::Late { .. } => RuleName::D13,
        Entry::Failed { .. }
        | Entry::ErrorRequest { .. }
        | Entry::ErrorResult { .. }
        | Entry::ErrorBuffer { .. }
        | Entry::ErrorDevice => RuleName::D14,
        Entry::Begin { .. } | Entry::Call { .. } | Entry::Release { .. } | Entry::Signal { .. } =>
            RuleName::D15,
    }
}
