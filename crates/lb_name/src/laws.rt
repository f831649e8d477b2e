//! What holds of names on the wire and as text. Each function is a law: its contract is the statement, and a call does
//! nothing but bring it to the caller's proof.

ghost use Rattle.lb_name.specs.Laws.{LabelIsPassed, LabelsGoOn, LowersOnWire, OneName, SplitsBack, TextRoundTrip};

/// Octets begin with one name at most, and one rest follows it.
pub fn one_name()
    ensures { OneName }
{}

/// Splitting a name's octets into labels gives back its labels.
pub fn splits_back()
    ensures { SplitsBack }
{}

/// Octets that begin with labels, and are labels up to where no label stands, go on with labels.
pub fn labels_go_on()
    ensures { LabelsGoOn }
{}

/// Past labels that could begin a name, a further label is passed.
pub fn label_is_passed()
    ensures { LabelIsPassed }
{}

/// In lower case, the octets of a name are those of the name in lower case.
pub fn lowers_on_wire()
    ensures { LowersOnWire }
{}

/// What `write_text` spells of a name, `parse_text` reads as that name.
pub fn text_round_trip()
    ensures { TextRoundTrip }
{}
