//! The rows of all sources of a step by the plain rule, and the row of zeros.

ghost use Rattle.std.specs.Prelude.{◌≡◌, IfOk, IfSome, IfNone, All, length};
ghost use Rattle.pq_base.specs.Elementary.{zeros};
ghost use Rattle.derivation_log.specs.CertificateParts.{HasPlainRow};
ghost use Rattle.cert_checker.specs.StepRows.{AreToolsFor, NamesRelator, ArePlainRows, IsRowFor};

use crate::source_rows::row_of;
use crate::tools::Tools;
use derivation_log::RowSource;
use fp_rows::Row;
use lpres_reader::LPres;
use p_cover::Cover;
use pq_base::NoMemory;
use std::alloc::Global;

/// The rows of sources in a cover, each by the plain rule, or `None` where one of them has none.
pub(crate) fn rows_of(
    alloc: Global,
    cover: &Cover,
    pres: &LPres,
    sources: &[RowSource],
) -> Result<Option<Vec<Row>>, NoMemory>
    requires names { cover.now.answer.names ≡ pres.now.names }
    requires named { All (NamesRelator pres.now) sources.now }
    ensures some { IfOk result (λ found. IfSome found (λ rows. ArePlainRows pres.now cover.now sources.now rows.items)) }
    ensures none { IfOk result (λ found. IfNone found (¬ All (HasPlainRow pres.now cover.now) sources.now)) }
{
    let mut tools = Tools::over(alloc, cover)?;
    let mut rows = Vec::new(alloc);
    for source in sources {
        let mut row = zero_row(alloc, cover)?;
        if !row_of(&mut tools, cover, pres, source, &mut row) {
            return Ok(None);
        }
        let _row = row.width();
        rows.push(row)?;
    }
    Ok(Some(rows))
}

/// The row of zeros over the tails of a cover.
pub(crate) fn zero_row(alloc: Global, cover: &Cover) -> Result<Row, NoMemory>
    ensures row { IfOk result (λ row. IsRowFor cover.now row) }
    ensures zero { IfOk result (λ row. row.entries ≡ zeros (length cover.now.sources)) }
{
    let prime = cover.pcp().prime();
    let _prime = prime.value();
    let row = Row::zero(alloc, prime, cover.tails())?;
    let _row = row.width();
    Ok(row)
}
