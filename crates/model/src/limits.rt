// The limits of counts, quotas, periods and declared sets, which a table and a state share (rules 1.1 to 1.6). Assumes nothing.
ghost use Rattle.std.specs.Prelude.{◌≡◌, ◌≤◌};
ghost use Rattle.model.specs.Fresh.{no_entry};
ghost use Rattle.model.specs.Sound.{counts_fit, quota_fits, declared_fits};

use crate::{Entry, LONGEST};

// Rules 1.1 to 1.3.
pub fn counts_fit(processors: u16, tasks: u16, resources: u16) -> bool
    ensures { result ≡ counts_fit processors tasks resources }
{
    (1..=8).contains(&processors) && (1..=16).contains(&tasks) && resources <= 16
}

// Rule 1.4.
pub fn quota_fits(quota: u32, period: u32) -> bool
    ensures { result ≡ quota_fits quota period }
{
    1 <= quota && quota <= period && period <= LONGEST
}

// A declared set has bits of the resources only (rule 4.2).
pub fn declared_fits(resources: u16, declared: u16) -> bool
    requires { resources ≤ 16 }
    ensures { result ≡ declared_fits resources declared }
{
    u32::from(declared) >> resources == 0
}

// A line below every limit, which stands where a table has none.
pub fn no_entry() -> Entry
    ensures { result ≡ no_entry }
{
    Entry {
        quota: 0,
        period: 0,
        declared: 0,
    }
}
