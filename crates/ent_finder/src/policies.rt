//! What the layers above need of where documents are held.

ghost use Rattle.std.specs.Prelude.{◌≡◌, ◌<◌, ◌≤◌, List, None, OnErr, OnOk, length, map, slice_get, slice_set};
ghost use Rattle.std.specs.FinMap as finmap;
ghost use Rattle.std.specs.Option.{ForSome, option_copied, option_map};
ghost use Rattle.ent_policy.specs.Key.{key_of};
ghost use Rattle.ent_finder.specs.Entry.{entry_of};
ghost use Rattle.ent_finder.specs.Finding.{has_document, resolved};
ghost use Rattle.ent_finder.specs.Slots.{Slots, document_at, document_count, held, module_at};

use crate::slot::DocSlot;
use ent_policy::{DocKey, Document, Reference};
use std::alloc::AllocError;

/// Documents in several modules, which are asked in their order.
pub trait Policies: Drop {
    // of each module
    ghost slots: { Self → List Slots };

    /// How many modules there are.
    fn len(&self) -> usize
        ensures { result ≡ length (slots self.now) };

    /// Of the first module that has a document which the reference names, the most recent such one (sections 5.10 and
    /// 5.11), and that module's number. It takes no memory.
    fn resolve(&self, reference: &Reference) -> Option<(usize, &Document)>
        ensures { option_map (λ r. (r.0, r.1.now)) result ≡ resolved reference.now (map held (slots self.now)) };

    /// Whether a module holds a document with that key. It takes no memory.
    fn holds(&self, number: usize, key: &DocKey) -> bool
        requires { number < length (slots self.now) }
        ensures { result ≡ has_document key.now (held (module_at (slots self.now) number)) };

    /// The document that the module of that number holds under that key, if there is such a module, and such a
    /// document in it. It takes no memory.
    fn document_at(&self, number: usize, key: &DocKey) -> Option<&Document>
        ensures { option_copied result ≡ document_at (module_at (slots self.now) number) key.now };

    /// How many documents all modules hold.
    fn document_count(&self) -> u128
        ensures { result ≡ document_count (map held (slots self.now)) };

    /// Exchanges what is in the slot of a key with `document`, in the module of that number. The slot is made if it
    /// isn't there; where it is, the exchange takes no memory, so that a second one undoes the first.
    fn swap_document(
        &mut self,
        number: usize,
        key: &DocKey,
        document: &mut Option<Document>,
    ) -> Result<(), AllocError>
        requires number { number < length (slots self.old) }
        requires key { ForSome document.old (λ d. key_of d ≡ key.now) }
        ensures swapped { OnOk result (slots self.new
            ≡ slice_set (slots self.old) number (finmap.insert (module_at (slots self.old) number) key.now document.old)) }
        ensures taken { OnOk result (document.new ≡ document_at (module_at (slots self.old) number) key.now) }

        // What comes out has that key too.
        ensures own { ForSome document.new (λ d. key_of d ≡ key.now) }

        // It is refused only where the slot isn't there, and then nothing is changed.
        ensures absent { OnErr result (finmap.get (module_at (slots self.old) number) key.now ≡ None) }
        ensures kept { OnErr result (slots self.new ≡ slots self.old) }
        ensures stayed { OnErr result (document.new ≡ document.old) };

    /// The slot at an index of a module, counted from 0. It takes no memory.
    fn slot_at(&self, number: usize, index: usize) -> Option<&DocSlot>
        requires { number < length (slots self.now) }
        ensures slot { option_map entry_of (option_copied result)
            ≡ slice_get (finmap.entries (module_at (slots self.now) number)) index }

        // Each slot has an index.
        ensures indexed { finmap.len (module_at (slots self.now) number) ≤ usize.MAX };
}
