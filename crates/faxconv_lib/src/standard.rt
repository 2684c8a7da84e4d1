//! Where a page breaks a rule by which every decoder must read it as the same picture.

use crate::info::name_of_part;
use fax_conforms::{Grade, Rule, first_violation};
use fax_pages::{Page, Part};
use hayro_ccitt::bits_fit;
use hayro_ccitt::codes::Ticks;
use std::alloc::{AllocError, Global};

/// Returns where the data of a page first breaks a rule by which every decoder must read it as the same picture, closed by EOFB, RTC
/// or its number of rows; `None` if no part does. Parts are numbered from 1, bits from 0. Rows that begin at multiples of 16 bits
/// aren't checked.
///
/// # Errors
///
/// If an allocation fails.
pub fn violation_of(alloc: Global, page: &Page<'_>) -> Result<Option<String>, AllocError> {
    if page.rows_are_words {
        return Ok(None);
    }
    let mut ticks = Ticks::new();
    let mut number: u64 = 0;
    for part in &page.parts {
        number = number.saturating_add(1);
        if let Some(text) = violation_in(alloc, page, part, number, &mut ticks)? {
            return Ok(Some(text));
        }
    }
    Ok(None)
}

/// Returns where the data of a part, which has this number, first breaks such a rule.
fn violation_in(
    alloc: Global,
    page: &Page<'_>,
    part: &Part,
    number: u64,
    ticks: &mut Ticks,
) -> Result<Option<String>, AllocError> {
    let data = page.data(part);
    if !bits_fit(data) {
        return Ok(None);
    }
    match first_violation(
        alloc,
        part.settings,
        Grade::Readable,
        page.order,
        data,
        ticks,
    ) {
        Ok(None) => Ok(None),
        Ok(Some(violation)) => {
            let text = format!(in alloc;
                "bit {} of {} {number} breaks a rule: {}",
                violation.place,
                name_of_part(page.kind),
                text_of_rule(violation.rule)
            )?;
            Ok(Some(text))
        }
        Err(_) => Err(AllocError),
    }
}

/// Returns what a rule asks for that is broken.
fn text_of_rule(rule: Rule) -> &'static str {
    match rule {
        Rule::Mode => "a mode is expected (T.4, 4.2.1.3)",
        Rule::Run => "a run is expected (T.4, 4.1.1)",
        Rule::RowEnd => "beyond the row's end (T.4, 4.1.1 and 4.2.1.3)",
        Rule::NoPixels => "no pixels (T.4, 4.1.1 and 4.2.1.3)",
        Rule::Columns => "no columns",
        Rule::Eol => "an EOL is expected (T.4, 4.1.2)",
        Rule::Tag => "a tag is expected (T.4, 4.2.2)",
        Rule::Padding => "zeros up to a whole byte are expected (T.4, 4.1.3)",
        Rule::PassToEnd => "pass mode to the row's end (T.4, 4.2.1.3.2)",
        // by the coding procedure alone, which isn't asked for
        Rule::Procedure | Rule::Kind | Rule::Fill | Rule::End =>
            "not what the coding procedure writes",
    }
}
