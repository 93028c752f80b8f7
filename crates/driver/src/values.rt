//! What a report says of the values of a graph's ports.

ghost use Rattle.driver.specs.Values.{ReportsHaveValues, ModesHaveValues, QuietReportsHaveValues};

/// What a report says, without tokens, for users of the compiler as a library.
///
/// Where the headline holds of a report, and the report ends at rest with no deferred reader, its outputs and cells are those
/// of a run of the meaning in which each port has one value, and the values satisfy the equations of the nodes: in any order of
/// the events, in each mode, and where the report lists no events.
pub fn reports_have_values()
    ensures values { ReportsHaveValues }
    ensures modes { ModesHaveValues }
    ensures quiet { QuietReportsHaveValues }
{}
