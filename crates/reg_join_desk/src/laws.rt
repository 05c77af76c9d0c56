// The law of replies at desks over a shared log. It costs nothing at run time.
ghost use Rattle.reg_topic.specs.declared.topic.Topic.{Topic};
ghost use Rattle.reg_join_desk.specs.JoinedDesk.{ShowWhatTheyReply};

use reg_chain::Chain;

/// States that a caller who gets a reply has then seen the list that this reply belongs to. So it
/// reads what its command wrote, at once and, by `feed_connections_read_their_writes` of
/// `reg_desk`, for the rest of the connection.
pub fn joined_desks_show_what_they_reply<C: Chain>()
    ensures { (base : Topic) → ShowWhatTheyReply C.told C.answers base }
{}
