//! What gives the pickers of an engine.
ghost use Rattle.std.specs.Prelude.{◌≡◌, [], ◌∷◌, IfOk, IsOkUnless};
ghost use Rattle.foyer_block_manager.specs.declared.block.picker.BuiltInPicker.TheVariants as picker;

use foyer_block_manager::block::eviction::{
    BuiltInPicker, EvictionPicker, FifoPicker, InvalidRatioPicker,
};
use foyer_device_page::error::Result;
use std::alloc::Global;
use std::fmt;
use std::fmt::{Debug, Formatter};

/// What gives the pickers of an engine.
pub trait PickerSource: Drop {
    ghost use Rattle.std.specs.Prelude.{List};
    ghost use Rattle.foyer_device_page.specs.declared.error.Error.TheVariants.{Memory};

    type Picker: EvictionPicker;

    // Which pickers it gives, in their order.
    ghost gives: { Self → List Self.Picker → Type 0 };

    /// Gives the pickers, in the order in which they are asked. Errors: `Memory`.
    fn into_pickers(self, alloc: Global) -> Result<Vec<Self::Picker>>
        ensures given { IfOk result (λ pickers. gives self pickers.items) }
        ensures refused { IsOkUnless result Memory };
}

/// First an `InvalidRatioPicker` of 8/10, which picks the block with the most invalid bytes if they are 8/10 of a block or more. Then a
/// `FifoPicker` of 1/10, which picks the block that became evictable longest ago.
#[derive(Clone, Copy, Debug, Default, PartialEq, Eq)]
pub struct DefaultPickers;

impl PickerSource for DefaultPickers {
    type Picker = BuiltInPicker;

    ghost gives = { λ _ pickers. pickers ≡ picker.InvalidRatio (record { num = 8; den = 10; block_size = 0 })
        ∷ picker.Fifo (record { num = 1; den = 10; queue = []; room = 0; probations = 0 }) ∷ [] };

    fn into_pickers(self, alloc: Global) -> Result<Vec<BuiltInPicker>> {
        let mut pickers = Vec::new(alloc);
        pickers.push(BuiltInPicker::InvalidRatio(InvalidRatioPicker::new(8, 10)))?;
        pickers.push(BuiltInPicker::Fifo(FifoPicker::default()))?;
        Ok(pickers)
    }
}

/// Pickers that the caller gives.
#[derive(Drop)]
pub struct GivenPickers<E: EvictionPicker>(pub Vec<E>);

/// The type's name.
impl<E: EvictionPicker> Debug for GivenPickers<E> {
    fn fmt<W: fmt::Write>(&self, f: &mut Formatter<W>) -> fmt::Result {
        f.write_str("GivenPickers")
    }
}

impl<E: EvictionPicker> PickerSource for GivenPickers<E> {
    type Picker = E;

    ghost gives = { λ given pickers. pickers ≡ given.0.items };

    fn into_pickers(self, _alloc: Global) -> Result<Vec<E>> {
        let GivenPickers(pickers) = self;
        Ok(pickers)
    }
}
