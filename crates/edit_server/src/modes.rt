// Which commands share their board with workers.
ghost use Rattle.std.specs.Prelude.{◌≡◌};
ghost use Rattle.text_answers.specs.Modes.{answers_text};
ghost use Rattle.edit_server.specs.Modes.{is_shared};

use command_words::{Command, Mode};

// Whether the mode answers one text.
fn answers_text(mode: Mode) -> bool
    ensures { result ≡ answers_text mode }
{
    match mode {
        Mode::Check | Mode::Recheck | Mode::Smoke => true,
        Mode::Serve | Mode::Gen => false,
    }
}

/// Whether workers prove beside the command's own thread.
pub fn is_shared(command: &Command) -> bool
    ensures { result ≡ is_shared command.now }
{
    !answers_text(command.mode) && command.workers != 0
}
