// What is known, by path and by identity.
ghost use Rattle.std.specs.Prelude.{◌≡◌, List, [], ◌∷◌, ◌++◌, IfOk, map};
ghost use Rattle.wx_recursor.specs.Identities.{has_identity, has_known, is_other};
ghost use Rattle.wx_recursor.specs.Owners.{has_path};
ghost use Rattle.wx_recursor.specs.declared.known.Known.{Known};
ghost use Rattle.wx_recursor_lists.specs.Met.{has_met_one};
ghost use Rattle.wx_index.specs.Keys.{AreIndexed, AreKnown, identity_bytes};

use crate::asked::{IsAt, IsOther, IsThis, IsUnder};
use crate::asked_met::IsMet;
use crate::chains::Chains;
use crate::question::first_met;
use std::alloc::Global;
use wx_recursor::{Identity, Known};
use wx_text::{Copies, Memory};
use wx_tree::Place;
use wx_words::TextPath;

/// Where what is known stands in its list, by path and by identity.
pub(crate) struct KnownIndex {
    paths: Chains,
    identities: Chains,
}

// Its parts are dropped by one call: docs/DESIGN.md, "What proofs cost".
impl Drop for KnownIndex {
    fn drop(self) {
        let KnownIndex {
            paths: _,
            identities: _,
        } = self;
    }
}

/// The bytes by which an identity is found. It fails only for want of memory.
fn spell(alloc: Global, identity: &Identity) -> Result<TextPath, Memory>
    ensures { IfOk result (λ bytes. bytes ≡ identity_bytes identity.now) }
{
    match identity {
        Identity::Canonical(path) => path.path(alloc),
        Identity::Lexical(path) => path.path(alloc),
    }
}

impl KnownIndex {
    /// Of nothing. It takes no memory.
    pub(crate) fn new(alloc: Global) -> KnownIndex
        ensures { AreKnown [] result }
    {
        KnownIndex {
            paths: Chains::new(alloc),
            identities: Chains::new(alloc),
        }
    }

    /// One more at the end. It fails only for want of memory.
    fn with(self, alloc: Global, known: &Known) -> Result<KnownIndex, Memory>
        ensures { IfOk result (λ index. (ks : List Known) → AreKnown ks self → AreKnown (ks ++ known.now ∷ []) index) }
    {
        let KnownIndex {
            mut paths,
            mut identities,
        } = self;
        let path = known.path.path(alloc)?;
        let identity = spell(alloc, &known.identity)?;
        paths.push(path.text().copy(alloc)?)?;
        identities.push(identity.text().copy(alloc)?)?;
        Ok(KnownIndex { paths, identities })
    }

    /// Whether the path is known under another identity. It fails only for want of memory.
    pub(crate) fn is_other(
        &self,
        alloc: Global,
        path: &Place,
        identity: &Identity,
        known: &[Known],
    ) -> Result<bool, Memory>
        requires { AreKnown known.now self.now }
        ensures { IfOk result (λ is. is ≡ is_other path.now identity.now known.now) }
    {
        let bytes = path.path(alloc)?;
        let at = first_met(
            &self.paths,
            bytes.text(),
            known,
            &IsOther { path, identity },
        );
        Ok(at < known.len())
    }

    /// Whether the path is known under this identity. It fails only for want of memory.
    pub(crate) fn has_known(
        &self,
        alloc: Global,
        path: &Place,
        identity: &Identity,
        known: &[Known],
    ) -> Result<bool, Memory>
        requires { AreKnown known.now self.now }
        ensures { IfOk result (λ is. is ≡ has_known path.now identity.now known.now) }
    {
        let bytes = path.path(alloc)?;
        let at = first_met(&self.paths, bytes.text(), known, &IsThis { path, identity });
        Ok(at < known.len())
    }

    /// Whether the path is known. It fails only for want of memory.
    pub(crate) fn has_path(
        &self,
        alloc: Global,
        path: &Place,
        known: &[Known],
    ) -> Result<bool, Memory>
        requires { AreKnown known.now self.now }
        ensures { IfOk result (λ is. is ≡ has_path path.now (map (λ k. k.path) known.now)) }
    {
        let bytes = path.path(alloc)?;
        let at = first_met(&self.paths, bytes.text(), known, &IsAt { path });
        Ok(at < known.len())
    }

    /// Whether some path is known under this identity. It fails only for want of memory.
    pub(crate) fn has_identity(
        &self,
        alloc: Global,
        identity: &Identity,
        known: &[Known],
    ) -> Result<bool, Memory>
        requires { AreKnown known.now self.now }
        ensures { IfOk result (λ is. is ≡ has_identity identity.now known.now) }
    {
        let bytes = spell(alloc, identity)?;
        let at = first_met(&self.identities, bytes.text(), known, &IsUnder { identity });
        Ok(at < known.len())
    }

    /// Whether one of these meets what is asked. It fails only for want of memory.
    pub(crate) fn has_met(
        &self,
        alloc: Global,
        question: &IsMet<'_>,
        known: &[Known],
    ) -> Result<bool, Memory>
        requires { AreKnown known.now self.now }
        ensures { IfOk result (λ is. is ≡ has_met_one question.now.root.now question.now.identity.now question.now.known.now question.now.owners.now known.now) }
    {
        let bytes = spell(alloc, question.identity)?;
        let at = first_met(&self.identities, bytes.text(), known, question);
        Ok(at < known.len())
    }
}

/// One more at the end, as long as there is an index and memory for it.
pub(crate) fn grown(alloc: Global, index: Option<KnownIndex>, known: &Known) -> Option<KnownIndex>
    ensures { (ks : List Known) → AreIndexed ks index → AreIndexed (ks ++ known.now ∷ []) result }
{
    match index {
        Some(index) => match index.with(alloc, known) {
            Ok(index) => Some(index),
            Err(Memory) => None,
        },
        None => None,
    }
}

/// The index of these, where there is memory for it.
pub(crate) fn index_of(alloc: Global, known: &[Known]) -> Option<KnownIndex>
    ensures { AreIndexed known.now result }
{
    let mut index = Some(KnownIndex::new(alloc));
    for one in known {
        index = grown(alloc, index, one);
    }
    index
}
