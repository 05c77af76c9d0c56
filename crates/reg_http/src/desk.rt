// What answers queries and replies to commands.
use reg_leader::{Command, Reply};
use reg_lookup::{Answer, Query};
use std::alloc::{AllocError, Global};

/// A request handler: answers queries and carries out commands. Its clauses say what each call may
/// do.
pub trait Desk {
    ghost use Rattle.std.specs.Prelude.{Result};
    ghost use Rattle.std.specs.declared.alloc.AllocError.{AllocError};
    ghost use Rattle.reg_leader.specs.declared.command.Command.{Command};
    ghost use Rattle.reg_leader.specs.declared.reply.Reply.{Reply};
    ghost use Rattle.reg_lookup.specs.declared.answered.Answer.{Answer};
    ghost use Rattle.reg_lookup.specs.declared.query.Query.{Query};

    /// The desk before, a query, what is answered, and the desk after.
    ghost asks: { Self → Query → Result Answer AllocError → Self → Type 0 };

    /// The desk before, a command, what is replied, and the desk after.
    ghost commands: { Self → Command → Reply → Self → Type 0 };

    /// Answers a query. The only error is out of memory.
    fn ask(&mut self, alloc: Global, query: &Query) -> Result<Answer, AllocError>
        ensures { asks self.old query.now result self.new };

    /// Carries out a command or refuses it, and returns the reply.
    fn command(&mut self, command: &Command) -> Reply
        ensures { commands self.old command.now result self.new };
}
