//! What a module of documents promises.

ghost use Rattle.std.specs.Prelude.{◌≡◌, ◌≤◌, None, OnErr, OnOk, slice_get};
ghost use Rattle.std.specs.FinMap as finmap;
ghost use Rattle.std.specs.Option.{ForSome, option_copied, option_map};
ghost use Rattle.ent_policy.specs.Key.{key_of};
ghost use Rattle.ent_finder.specs.Entry.{entry_of};
ghost use Rattle.ent_finder.specs.Finding.{most_recent};
ghost use Rattle.ent_finder.specs.Slots.{Slots, document_at, held};

use crate::slot::DocSlot;
use ent_policy::{DocKey, Document, Reference};
use std::alloc::AllocError;

/// Holds documents, each in the slot of its key. The slots stand in the order of their keys.
pub trait PolicyFinderModule: Drop {
    ghost slots: { Self → Slots };

    /// Of the documents that the reference names, the most recent one (sections 5.10 and 5.11). It takes no memory.
    fn find_reference(&self, reference: &Reference) -> Option<&Document>
        ensures { option_copied result ≡ most_recent reference.now (held (slots self.now)) };

    /// Exchanges what is in the slot of a key with `document`. The slot is made if it isn't there; where it is, the
    /// exchange takes no memory, so that a second one undoes the first.
    fn swap_document(
        &mut self,
        key: &DocKey,
        document: &mut Option<Document>,
    ) -> Result<(), AllocError>
        requires { ForSome document.old (λ d. key_of d ≡ key.now) }
        ensures swapped { OnOk result (slots self.new ≡ finmap.insert (slots self.old) key.now document.old) }
        ensures taken { OnOk result (document.new ≡ document_at (slots self.old) key.now) }

        // What comes out has that key too.
        ensures own { ForSome document.new (λ d. key_of d ≡ key.now) }

        // It is refused only where the slot isn't there, and then nothing is changed.
        ensures absent { OnErr result (finmap.get (slots self.old) key.now ≡ None) }
        ensures kept { OnErr result (slots self.new ≡ slots self.old) }
        ensures stayed { OnErr result (document.new ≡ document.old) };

    /// The slot at an index, counted from 0. It takes no memory.
    fn slot_at(&self, index: usize) -> Option<&DocSlot>
        ensures slot { option_map entry_of (option_copied result) ≡ slice_get (finmap.entries (slots self.now)) index }

        // Each slot has an index.
        ensures indexed { finmap.len (slots self.now) ≤ usize.MAX };
}
