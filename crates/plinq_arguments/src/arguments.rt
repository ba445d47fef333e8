use crate::command::Command;
use plinq_settings::Settings;

/// What a command line asks for.
#[derive(Clone, Copy, Debug, PartialEq, Eq)]
pub struct Arguments {
    /// The subcommand.
    pub command: Command,
    /// The options of the query.
    pub settings: Settings,
    /// `--workers auto`: as many workers as the process may use cores. The settings have no number of workers then.
    pub cores: bool,
    /// `--plain`: elements alone are printed.
    pub plain: bool,
}
