// What the messages of a text are. What is proved here costs nothing at run time.
ghost use Rattle.reg_adapter.specs.Laws.{FaultsAreFirst, MessagesAreRead, MessagesHaveTexts, TextsAreMessages, TextsTellOnce, TranscriptsAreUnique};

/// States that a text has the same messages in whatever pieces it comes, and the same first fault,
/// behind which nothing is given. Costs nothing at run time.
pub fn pieces_tell_the_same()
    ensures messages { TextsTellOnce }
    ensures faults { FaultsAreFirst }
{}

/// States that messages have a text, that it is read as those messages, that only texts that are
/// written so are, and that what an adapter says has one base and one list of messages. Costs
/// nothing at run time.
pub fn messages_are_texts()
    ensures exist { MessagesHaveTexts }
    ensures read { MessagesAreRead }
    ensures written { TextsAreMessages }
    ensures unique { TranscriptsAreUnique }
{}
