//! The directories of the cores of a store.
ghost use Rattle.std.specs.Prelude.{◌≡◌, ◌≤◌, IfOk, IfErr, string_bytes};
ghost use Rattle.foyer_device_page.specs.declared.error.Error.TheVariants.{Memory};

use foyer_device_page::error::Result;
use std::alloc::Global;

/// The path of a core's part of a directory: `core-0` to `core-3` in it, or the directory itself if there is one core. Cores are counted
/// from 0. All cores from number 3 on have one path, since a store has four at most. Errors: `Memory`.
pub fn core_path(alloc: Global, directory: &str, core: u64, cores: u64) -> Result<String>
    ensures one { cores ≤ 1 → IfOk result (λ path. string_bytes path ≡ directory.now) }
    ensures refused { IfErr result (λ e. e ≡ Memory) }
{
    let mut path = String::from_str(alloc, directory)?;
    if cores > 1 {
        path.push_str("/core-")?;
        path.push_str(match core {
            0 => "0",
            1 => "1",
            2 => "2",
            _ => "3",
        })?;
    }
    Ok(path)
}
