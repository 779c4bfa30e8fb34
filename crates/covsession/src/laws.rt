//! Laws of a session's commands and answers. Each law is the contract of a function that does nothing.

ghost use Rattle.std.specs.Prelude.{◌≡◌, ◌≢◌, ℕ, List};
ghost use Rattle.std.specs.List.{AllByRecursion};
ghost use Rattle.covline.specs.Lines.{pieces_of};
ghost use Rattle.covdata.specs.declared.fault.ReadFault.TheVariants as read_faults;
ghost use Rattle.covsession.specs.Command.{Command, Refuse, AreCommands};
ghost use Rattle.covsession.specs.Session.{IsSession};

use covline::lines_are_the_text;
use covread::{each_gcov_text_has_one_outcome, each_text_has_one_outcome};

/// Each input has exactly one list of commands.
pub fn each_input_is_one_list_of_commands()
    ensures some { (input : List ℕ) → (commands : List Command) × AreCommands (pieces_of input) commands }
    ensures one { (input : List ℕ) (x y : List Command) → AreCommands (pieces_of input) x → AreCommands (pieces_of input) y → x ≡ y }
{
    each_text_has_one_outcome();
    each_gcov_text_has_one_outcome();
}

/// Each input has exactly one session text.
pub fn each_input_has_one_session_text()
    ensures some { (input : List ℕ) → (output : List ℕ) × IsSession input output }
    ensures one { (input x y : List ℕ) → IsSession input x → IsSession input y → x ≡ y }
{
    each_text_has_one_outcome();
    each_gcov_text_has_one_outcome();
}

/// A session never rejects a text for the name of its test: the name is a part of one line, and so always good. No answer says that
/// memory ran out: the session ends instead.
pub fn no_session_refuses_a_test()
    ensures { (input : List ℕ) (commands : List Command) → AreCommands (pieces_of input) commands
        → AllByRecursion (λ command. (command ≢ Refuse read_faults.BadTest) × (command ≢ Refuse read_faults.Memory)) commands }
{
    lines_are_the_text();
}
