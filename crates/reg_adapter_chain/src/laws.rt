// What conversations come to. What is proved here costs nothing at run time.
ghost use Rattle.reg_adapter_chain.specs.Laws.{AsksGoOn, HandedBeginsChain, HandsGoOn, TellsGoOn};

/// States that the batches handed out are a prefix of the chain that the conversation comes to,
/// each once and in order, and that what is due is the rest of it, whatever is told, asked and
/// handed out. Costs nothing at run time.
pub fn handed_out_begins_the_chain()
    ensures begins { HandedBeginsChain }
    ensures tells { TellsGoOn }
    ensures asks { AsksGoOn }
    ensures hands { HandsGoOn }
{}
