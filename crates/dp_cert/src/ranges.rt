//! The ranges of the numbers of a line.
ghost use Rattle.std.specs.Prelude.{◌≡◌, ◌+◌, ◌++◌, length, replicate, IfOk, IfErr};
ghost use Rattle.dp_spec.specs.TextLines.{plain};
ghost use Rattle.dp_lines.specs.Lines.{plain_form};
ghost use Rattle.dp_cert.specs.declared.fault.CertFault.TheVariants as faults;

use crate::CertFault;
use dp_lines::PlainRange;

/// These ranges, and behind them one range so many times.
pub(crate) fn and_alike(
    first: Vec<PlainRange>,
    count: u32,
    range: PlainRange,
) -> Result<Vec<PlainRange>, CertFault>
    ensures ok { IfOk result (λ ranges.
        plain_form ranges.items ≡ plain_form first.items ++ replicate count (plain range.low range.high)) }
    ensures count { IfOk result (λ ranges. length ranges.items ≡ length first.items + count) }
    ensures err { IfErr result (λ fault. fault ≡ faults.Memory) }
{
    let mut ranges = first;
    for _place in 0..count {
        ranges.push(range)?;
    }
    Ok(ranges)
}
