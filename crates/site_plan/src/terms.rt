//! What the limits of a site are called.
ghost use Rattle.std.specs.Prelude.{◌≡◌};
ghost use Rattle.site_plan.specs.Terms.{limit_name};

use preflight::Limit;

/// The name of a limit.
pub fn limit_name(limit: Limit) -> &'static str
    ensures { result.now ≡ limit_name limit }
{
    match limit {
        Limit::Texts => "texts",
        Limit::Bytes => "bytes",
        Limit::Jobs => "jobs",
        Limit::Statements => "statements",
        Limit::Largest => "largest",
        Limit::Work => "work",
        Limit::DataSets => "data_sets",
        Limit::Records => "records",
    }
}
