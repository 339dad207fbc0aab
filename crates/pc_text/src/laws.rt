//! Laws of the definitions of a script and of a printed run, each the contract of a function that
//! does nothing.
ghost use Rattle.std.specs.Prelude.{◌≡◌, ℕ, List, [], ◌∷◌};
ghost use Rattle.pc_model.specs.declared.call.Call.{Call};
ghost use Rattle.pc_text.specs.FixesHistory.{FixesHistory};
ghost use Rattle.pc_text.specs.Script.{script_of};
ghost use Rattle.pc_text.specs.Made.{MadeReadsBack};
ghost use Rattle.pc_text.specs.ScriptText.{ReadsBack, ClientsReadBack};

/// Where there are no bytes, the script is that of one client with no calls.
pub fn empty_input_gives_empty_script()
    ensures { script_of [] ≡ Ok (record { clients = 1; calls = [] ∷ [] }) }
{}

/// Puts and gets that are written a line each are the script of these calls.
pub fn written_commands_read_back()
    ensures { (calls : List Call) → ReadsBack calls }
{}

/// The commands of several clients, each client's written behind its line, are the script of these calls.
pub fn written_clients_read_back()
    ensures { (lists : List (List Call)) → ClientsReadBack lists }
{}

/// A script that is made from a seed reads back: it is a script, of the commands that were drawn.
pub fn made_scripts_read_back()
    ensures { (seed clients commands : ℕ) → MadeReadsBack seed clients commands }
{}

/// Two runs whose calls differ in a client or pass, a number, a call or a reply, or whose pairs
/// differ, are not printed alike.
pub fn printed_run_fixes_history()
    ensures { FixesHistory }
{}
