//! Laws of reports. Each function does nothing, and its contract is the law.

ghost use Rattle.ns_json.specs.Laws.{ReportsAreToldApart, ValuesAreToldApart};

/// Two values of JSON that have one text are the same value.
pub fn values_are_told_apart()
    ensures { ValuesAreToldApart }
{}

/// Two reports that have one text are the same report: from the line that a host is given it knows all that is told, and no
/// output of a program makes the line of another report.
pub fn reports_are_told_apart()
    ensures { ReportsAreToldApart }
{}
