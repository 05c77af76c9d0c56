// The laws of responses. What is proved here costs nothing at run time.
ghost use Rattle.reg_responses.specs.Phrases.{AnswersHavePhrases, RefusalsHavePhrases, RepliesHavePhrases};

/// States that the status of each response has a phrase (RFC 9110, section 15): those of refusals,
/// of replies to commands and of answers to queries.
pub fn statuses_have_phrases()
    ensures refusals { RefusalsHavePhrases }
    ensures replies { RepliesHavePhrases }
    ensures answers { AnswersHavePhrases }
{}
