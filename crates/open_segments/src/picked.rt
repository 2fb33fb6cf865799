//! Numbers that pass a test, put into a list one by one.
ghost use Rattle.std.specs.Prelude.{◌++◌, ◌∷◌, [], ◌≡◌, if◌then◌else◌, OnOk, OnErr};

use task_program::AllocFault;

/// Adds a number to a list, if it is to be kept. It is refused only when memory runs out, and then
/// the list stays.
pub fn push_if(list: &mut Vec<u32>, number: u32, keep: bool) -> Result<(), AllocFault>
    ensures kept { OnOk result (list.new.items
        ≡ (if keep then list.old.items ++ number ∷ [] else list.old.items)) }
    ensures refused { OnErr result (list.new.items ≡ list.old.items) }
{
    if keep {
        list.push(number)?;
    }
    Ok(())
}
