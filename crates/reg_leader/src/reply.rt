// What is replied to a command.
use reg_rules::base_text::Listed;
use reg_rules::reg_fold::Refusal;
use reg_rules::reg_level_names::Level;
use reg_rules::reg_modes::Mode;

/// The reply to a command.
#[derive(Debug, Drop)]
pub enum Reply {
    /// The id of the registered schema.
    Id(u32),
    /// The version that was deleted.
    Version(u32),
    /// The versions that were deleted, ascending.
    Versions(Listed<u32>),
    /// The level that was set.
    Level(Level),
    /// The level that was removed.
    LevelRemoved(Level),
    /// The mode that was set.
    Mode(Mode),
    /// The mode that was removed.
    ModeRemoved(Mode),
    /// The command was done, and has nothing to report.
    Nothing,
    /// The command was refused and wrote nothing.
    Refused(Refusal),
    /// It isn't known yet whether the batch is in the log. Has the offset of its first record.
    /// [`crate::decide`] never gives this reply.
    Unsettled(u64),
}
