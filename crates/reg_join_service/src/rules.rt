// The number of the registry's rules.

/// The number of the registry's rules. Each change of what a command writes, or of which command
/// may have written a batch, raises it. Processes that share a log need the same number, since each
/// decides again what the others wrote. `docs/COMMANDS.md` lists the numbers.
pub const RULES: u32 = 1;
