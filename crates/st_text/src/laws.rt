//! Laws of the definitions. The functions do nothing: their contracts are the laws.

ghost use Rattle.st_text.specs.Laws.{ReadIsSpelled, SpelledIsRead, TextIsOne, TextHasNoFault};
ghost use Rattle.st_text.specs.Laws.{NoFaultIsText, FaultIsFirst, UnknownIsFirst, WrittenIsRead};

/// Says that a line is read exactly as it is spelled.
pub fn line_is_read_as_spelled()
    ensures read { ReadIsSpelled }
    ensures spelled { SpelledIsRead }
{}

/// Says that bytes are the text of at most one bundle.
pub fn text_is_one()
    ensures { TextIsOne }
{}

/// Says that the text of a bundle within the limits has no fault.
pub fn text_has_no_fault()
    ensures { TextHasNoFault }
{}

/// Says that bytes without a fault are the text of a bundle within the limits; by
/// `text_has_no_fault` no other bytes are.
pub fn text_or_fault()
    ensures { NoFaultIsText }
{}

/// Says that the fault of lines is that of the first faulty line, and that `Unknown` names the
/// first line with an unlisted pid.
pub fn fault_is_first()
    ensures line { FaultIsFirst }
    ensures unknown { UnknownIsFirst }
{}

/// Says that the text of a bundle within the limits is read as that bundle.
pub fn written_is_read()
    ensures { WrittenIsRead }
{}
