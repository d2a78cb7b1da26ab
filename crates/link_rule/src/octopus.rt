ghost use Rattle.std.specs.Prelude.{◌≡◌, ◌<◌, ◌^◌, ◌++◌, length, IfOk, OnOk};
ghost use Rattle.std.specs.List.{AllZip};
ghost use Rattle.text_model.specs.Text.{IsBytes};
ghost use Rattle.text_model.specs.Id as text;
ghost use Rattle.hg_model.specs.Changeset.{IsDateLine};
ghost use Rattle.hg_changeset.specs.Values.{changeset_value, date_value};
ghost use Rattle.view_model.specs.View.{ChangesetView};
ghost use Rattle.pair_model.specs.Octopus as model;
ghost use Rattle.link_rule.specs.Links.{IsLinkOf, links_along};

use crate::form::{LINK_DESCRIPTION, LINK_KEY, LINK_USER};
use crate::link::Link;
use bridge_text::{Bytes, Id, NoMemory, Paths, decimal_into, node_id};
use hg_changeset::{Changeset, DateLine, ExtraItem, Extras};
use std::alloc::Global;

/// What the links of a commit of three and more parents have in common.
#[derive(Clone, Copy, Debug)]
pub struct Octopus {
    /// The id of the commit.
    pub commit: Id,
    /// How many parents it has.
    pub count: u64,
    /// The manifest of the first parent's partner.
    pub manifest: Id,
}

impl Octopus {
    /// The links between these partners of the commit's parents; none below three.
    pub fn links(&self, alloc: Global, partners: &[Id]) -> Result<Vec<Link>, NoMemory>
        ensures { IfOk result (λ links. (base : ChangesetView) → (base.fields).manifest ≡ self.now.manifest
            → AllZip IsLinkOf links.items (links_along self.now.commit base self.now.count partners.now)) }
    {
        let mut links = Vec::new(alloc);
        let [first, seconds @ .., _] = partners else {
            return Ok(links);
        };
        let mut before = *first;
        for (place, second) in seconds.iter().enumerate() {
            let link = self.link(alloc, place as u64 + 1, before, *second)?;
            before = link.node;
            links.push(link)?;
        }
        Ok(links)
    }

    // The link with this number, over these parents.
    fn link(&self, alloc: Global, number: u64, p: Id, q: Id) -> Result<Link, NoMemory>
        ensures { IfOk result (λ link. (base : ChangesetView) → (base.fields).manifest ≡ self.now.manifest
            → IsLinkOf link (model.link_view self.now.commit base self.now.count number p q)) }
    {
        let changeset = self.fields(alloc, number)?;
        let mut text = Vec::new(alloc);
        changeset.write_into(&mut text)?;
        let node = node_id(&p, &q, text.as_slice());
        Ok(Link {
            p,
            q,
            changeset,
            text: Bytes::keep(text),
            node,
        })
    }

    // The fields of the link with this number.
    #[tactic(auto, unfolding(pair_model::specs::Octopus::link_view))]
    fn fields(&self, alloc: Global, number: u64) -> Result<Changeset, NoMemory>
        ensures fields { IfOk result (λ x. (base : ChangesetView) (p q : text.Id) → (base.fields).manifest ≡ self.now.manifest
            → changeset_value x ≡ (model.link_view self.now.commit base self.now.count number p q).fields) }
        ensures date { IfOk result (λ x. IsDateLine (date_value x.date)) }
    {
        let key = Bytes::of(alloc, LINK_KEY)?;
        let mut value = Vec::new(alloc);
        self.value_into(&mut value, number)?;
        let value = Bytes::keep(value);
        let mut extras = Extras::new(alloc);
        extras.push(ExtraItem { key, value })?;
        Ok(Changeset {
            manifest: self.manifest,
            user: Bytes::of(alloc, LINK_USER)?,
            date: DateLine::Plain {
                time: 0,
                tz: 0,
                extras,
            },
            files: Paths::new(alloc),
            desc: Bytes::of(alloc, LINK_DESCRIPTION)?,
        })
    }

    // Appends the value of the item of the link with this number.
    fn value_into(&self, out: &mut Vec<u8>, number: u64) -> Result<(), NoMemory>
        ensures value { OnOk result (out.new.items ≡ out.old.items ++ model.link_value self.now.commit number self.now.count) }
        ensures bytes { OnOk result (IsBytes out.new.items) }
    {
        out.extend_from_slice(&self.commit.hex())?;
        out.push(b':')?;
        decimal_into(out, number)?;
        out.push(b':')?;
        decimal_into(out, self.count)
    }
}
