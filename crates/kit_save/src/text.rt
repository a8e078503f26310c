//! The text of a saved file.

ghost use Rattle.std.specs.Prelude.{◌≡◌, ◌<◌, ◌≤◌, length, IfOk, Err};
ghost use Rattle.serde_json.specs.Written.{compact_text};
ghost use Rattle.kit_walk.specs.Answers.{Says};
ghost use Rattle.kit_cut.specs.ValidCuts.{IsValidCut};
ghost use Rattle.kit_restore.specs.Saved.{IsSaved};
ghost use Rattle.kit_save.specs.CutValues.{saved_value};
ghost use Rattle.kit_save.specs.Text.{saved_text, most_saved};

use crate::saved_values::saved_value;
use crate::widths::{cut_has_words, federation_has_words};
use kit_cut::Cut;
use kit_rules::Federation;
use std::alloc::{AllocError, AllocFailed, Global};

/// How many bytes a saved file may have: as many as are read of an input.
const MOST_SAVED: usize = 1_048_576;

/// Why no saved file was written.
#[derive(Clone, Copy, Debug, PartialEq, Eq, thiserror::Error)]
pub enum SaveEnd {
    /// The file would have more than 1,048,576 bytes.
    #[error("the saved file would have more than 1,048,576 bytes")]
    CutTooLong,
    /// Memory ran out.
    #[error("memory ran out")]
    NoMemory,
}

ghost use Rattle.kit_save.specs.declared.text.SaveEnd.TheVariants.{NoMemory, CutTooLong};

impl From<AllocError> for SaveEnd {
    ghost from_gives = { λ _ e. e ≡ NoMemory };

    fn from(_: AllocError) -> SaveEnd {
        SaveEnd::NoMemory
    }
}

impl<T: Drop> From<AllocFailed<T>> for SaveEnd {
    ghost from_gives = { λ _ e. e ≡ NoMemory };

    fn from(_: AllocFailed<T>) -> SaveEnd {
        SaveEnd::NoMemory
    }
}

/// The JSON of a federation with a cut, with no space in it.
fn json_text(alloc: Global, federation: &Federation, cut: &Cut) -> Result<Vec<u8>, AllocError>
    requires { IsValidCut federation.now cut.now }
    ensures text { IfOk result (λ text.
        text.items ≡ compact_text (saved_value federation.now cut.now)) }
    ensures says { IfOk result (λ text. Says text.items (saved_value federation.now cut.now)) }
{
    let value = saved_value(alloc, federation, cut)?;
    value.to_vec(alloc)
}

/// The saved file of a federation with a cut of its simulation: a federation file with the cut
/// beside it, as JSON with no space in it, and a line feed.
pub fn save_text(alloc: Global, federation: &Federation, cut: &Cut) -> Result<Vec<u8>, SaveEnd>
    requires { IsValidCut federation.now cut.now }
    ensures text { IfOk result (λ text. text.items ≡ saved_text federation.now cut.now) }
    ensures fits { IfOk result (λ text. length text.items ≤ most_saved) }
    ensures read_again { IfOk result (λ text. IsSaved text.items (federation.now, cut.now)) }
    ensures too_long { result ≡ Err CutTooLong
        → most_saved < length (saved_text federation.now cut.now) }
{
    federation.keeps_its_limits();
    federation_has_words(federation);
    cut_has_words(cut);
    let mut text = json_text(alloc, federation, cut)?;
    if text.len() >= MOST_SAVED {
        return Err(SaveEnd::CutTooLong);
    }
    text.push(b'\n')?;
    Ok(text)
}
