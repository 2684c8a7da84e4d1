//! Whether data conforms, for C.

ghost use Rattle.std.specs.Prelude.{◌≡◌, ◌≢◌, ◌⊎◌, ◌↔◌, None};
ghost use Rattle.hayro_ccitt.specs.Bits.{BitsFit};
ghost use Rattle.fax_conforms.specs.ByProcedure.{ConformsIn};
ghost use Rattle.hayro_ccitt_c.specs.Checked.{IsViolationTold, OnGrade, grade_of, k_of, no_violation, number_of_rule};
ghost use Rattle.hayro_ccitt_c.specs.Checked.{outcome_of_violation};
ghost use Rattle.hayro_ccitt_c.specs.Settings.{settings_of};
ghost use Rattle.c_rows.specs.declared.status.TheConstants.{OK, OUT_OF_MEMORY, NOT_TAKEN, VIOLATION};

use c_rows::settings::{Settings, order_of, settings_for};
use c_rows::status;
use fax_conforms::{Grade, Rule, Violation, first_violation};
use hayro_ccitt::codes::Ticks;
use std::alloc::Global;

/// What a check fills in for C.
#[repr(C)]
#[derive(Copy, Clone)]
pub struct ViolationOutcome {
    /// The offset in bits at which a rule is broken if the status is `VIOLATION`, else 0.
    pub place: u64,
    /// The number of the rule if the status is `VIOLATION`, else 0.
    pub rule: u64,
}

/// Returns the outcome of data that conforms, or that isn't checked.
fn no_violation() -> ViolationOutcome
    ensures { result ≡ no_violation }
{
    ViolationOutcome { place: 0, rule: 0 }
}

/// Returns the number of a rule.
fn number_of_rule(rule: Rule) -> u64
    ensures { result ≡ number_of_rule rule }
{
    match rule {
        Rule::Mode => 1,
        Rule::Run => 2,
        Rule::RowEnd => 3,
        Rule::NoPixels => 4,
        Rule::Columns => 5,
        Rule::Eol => 6,
        Rule::Tag => 7,
        Rule::Padding => 8,
        Rule::PassToEnd => 9,
        Rule::Procedure => 10,
        Rule::Kind => 11,
        Rule::Fill => 12,
        Rule::End => 13,
    }
}

/// Returns the outcome of a violation.
fn outcome_of_violation(found: Violation) -> ViolationOutcome
    ensures { result ≡ outcome_of_violation found }
{
    ViolationOutcome {
        place: found.place as u64,
        rule: number_of_rule(found.rule),
    }
}

/// Returns K of a number, or `None` for 0.
fn k_of(k: u32) -> Option<u32>
    ensures { result ≡ k_of k }
{
    if k == 0 { None } else { Some(k) }
}

/// Returns the grade that C means, or `None` if there is none of this number.
fn grade_of(grade: u32, k: u32) -> Option<Grade>
    ensures { result ≡ grade_of grade k }
{
    match grade {
        0 => Some(Grade::Readable),
        1 => Some(Grade::Procedure(k_of(k))),
        _ => None,
    }
}

/// Checks whether data conforms in a grade (`conforms` of `fax_conforms`): 0 if every decoder must read it back as the rows of a
/// picture, closed as the settings ask, and 1 if it is what the coding procedure writes (T.4, 4.1 and 4.2; T.6, 2), of
/// two-dimensional Group 3 with this K (T.4, 4.2.1), or any where `k` is 0. `k` has no effect in the other grade. Flags of a strict
/// reading and of packed rows have no effect.
///
/// `OK` says that it conforms; `VIOLATION`, that it doesn't: then `violation` has the place in bits, and the rule that is broken there
/// (`first_violation`). `OUT_OF_MEMORY` says that an allocation failed; `NOT_TAKEN`, that the data is too long, or the settings or the
/// grade are invalid. With all but `VIOLATION` `violation` is zeros.
#[unsafe(no_mangle)]
pub extern "C" fn hayro_ccitt_check(
    alloc: Global,
    data: &[u8],
    settings: &Settings,
    grade: u32,
    k: u32,
    violation: &mut ViolationOutcome,
) -> u32
    ensures statuses { (result ≡ OK) ⊎ (result ≡ VIOLATION) ⊎ (result ≡ OUT_OF_MEMORY) ⊎ (result ≡ NOT_TAKEN) }
    ensures conforms { result ≡ OK → OnGrade settings.now grade k «data».now (λ meant s bits. ConformsIn meant s bits) }
    ensures violated { result ≡ VIOLATION → OnGrade settings.now grade k «data».now (λ meant s bits. ConformsIn meant s bits → ⊥) }
    ensures told { result ≡ VIOLATION → OnGrade settings.now grade k «data».now (λ meant s bits. IsViolationTold meant s bits violation.new) }
    ensures nothing_told { result ≢ VIOLATION → violation.new ≡ no_violation }
    ensures untaken { (result ≡ NOT_TAKEN)
        ↔ ((settings_of settings.now ≡ None) ⊎ ((¬ (BitsFit «data».now)) ⊎ (grade_of grade k ≡ None))) }
{
    *violation = no_violation();
    let Some(meant) = settings_for(data, settings) else {
        return status::NOT_TAKEN;
    };
    let Some(asked) = grade_of(grade, k) else {
        return status::NOT_TAKEN;
    };
    let mut ticks = Ticks::new();
    match first_violation(alloc, meant, asked, order_of(settings), data, &mut ticks) {
        Ok(None) => status::OK,
        Ok(Some(found)) => {
            *violation = outcome_of_violation(found);
            status::VIOLATION
        }
        Err(_) => status::OUT_OF_MEMORY,
    }
}
