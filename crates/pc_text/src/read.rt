//! Reading a script from its bytes, in one pass.
ghost use Rattle.std.specs.Prelude.{◌≡◌, ◌+◌, ◌-◌, ◌≤◌, [], ◌∷◌, ◌++◌, length, map, slice_index_or, slice_set};
ghost use Rattle.std.specs.Prelude.{IfOk, IfErr, Ok, vec_len};
ghost use Rattle.std.specs.Int.{IsInRange};
ghost use Rattle.std.specs.List.{All};
ghost use Rattle.pc_text.specs.Script.{script_of};
ghost use Rattle.pc_text.specs.ScriptFacts.{AreFew, AreInRange, IsFaultOf};

use crate::cut::{after_line, line_len, without_return};
use crate::kind::ScriptKind;
use crate::limits::{MOST_BYTES, MOST_CLIENTS, MOST_COMMANDS};
use crate::line::{LineClass, read_line};
use crate::script::{Script, ScriptFault};
use pc_model::Call;
use std::alloc::{AllocError, Global};

/// Reads a script: exactly where the bytes spell one it is the answer, and else the first bad line with
/// what is wrong, unless memory is wanting.
///
/// A line is `client C`, `put K V`, `get K`, `remove K`, `ceil K` or `floor K`, with blanks between
/// words and around them. Lines without words and comments, which begin with `#`, are skipped. There
/// are at most 32 clients, and at most 60,000 commands together. Before any `client` line the client is 1.
pub fn read_script(alloc: Global, bytes: &[u8]) -> Result<Script, ScriptFault>
    requires { length bytes.now ≤ MOST_BYTES }
    ensures script { IfOk result (λ script. script_of bytes.now ≡ Ok script) }
    ensures bad { IfErr result (IsFaultOf bytes.now) }
    ensures some_clients { IfOk result (λ script. IsInRange 1 MOST_CLIENTS script.clients) }
    ensures list_each { IfOk result (λ script. length script.calls ≡ script.clients) }
    ensures few { IfOk result (λ script. AreFew script.calls) }
    ensures in_range { IfOk result (λ script. AreInRange script.calls) }
{
    let mut lists = empty_lists(alloc)?;
    let mut rest = bytes;
    let mut line = 0;
    let mut turn = 1;
    let mut clients = 1;
    let mut commands = 0;
    while rest.len() > 0 {
        let len = line_len(rest);
        let class = read_line(without_return(&rest[..len]));
        rest = after_line(rest, len);
        line += 1;
        match class {
            LineClass::Skip => {}
            LineClass::Turn(client) => {
                turn = client;
                clients = client.max(clients);
            }
            LineClass::Command(call) => {
                if commands == MOST_COMMANDS {
                    let kind = ScriptKind::TooManyLines;
                    return Err(ScriptFault::Bad { line, kind });
                }
                add_call(&mut lists, turn, call)?;
                commands += 1;
            }
            LineClass::Bad(kind) => return Err(ScriptFault::Bad { line, kind }),
        }
    }
    lists.truncate(clients as usize);
    Ok(Script {
        clients,
        calls: lists,
    })
}

// A list for each client that there may be.
fn empty_lists(alloc: Global) -> Result<Vec<Vec<Call>>, AllocError>
    ensures lists { IfOk result (λ lists. All (λ list. list.items ≡ []) lists.items) }
    ensures many { IfOk result (λ lists. vec_len lists ≡ MOST_CLIENTS) }
{
    let mut lists = Vec::new(alloc);
    for _ in 0..MOST_CLIENTS {
        lists.push(Vec::new(alloc))?;
    }
    Ok(lists)
}

// Puts a call behind those of its client.
fn add_call(lists: &mut Vec<Vec<Call>>, client: u32, call: Call) -> Result<(), AllocError>
    requires inside { IsInRange 1 (vec_len lists.old) client }
    ensures { IfOk result (λ _. let before = map (λ list. list.items) lists.old.items in
        map (λ list. list.items) lists.new.items
        ≡ slice_set before (client - 1) (slice_index_or before (client - 1) [] ++ call ∷ [])) }
{
    let list = &mut lists[client as usize - 1];
    list.push(call)?;
    Ok(())
}
