ghost use Rattle.std.specs.Prelude.{◌≡◌, List};
ghost use Rattle.text_model.specs.Id.{Id};
ghost use Rattle.hg_model.specs.Revision.{Revision};
ghost use Rattle.hg_store.specs.declared.view.View.{View};
ghost use Rattle.hg_store.specs.declared.fault.ViewFault.{ViewFault};
ghost use Rattle.hg_store.specs.Views.{IsView, IsViewFault, IsSameView};

/// A law, which does nothing when it runs. Among known revisions a node has one view or one fault.
pub fn views_exactly()
    ensures one { (known : List Revision) (node : Id) (v w : View) → IsView known node v → IsView known node w → IsSameView v w }
    ensures one_fault { (known : List Revision) (node : Id) (e f : ViewFault) → IsViewFault known node e → IsViewFault known node f → e ≡ f }
    ensures either { (known : List Revision) (node : Id) (v : View) (e : ViewFault) → IsView known node v → IsViewFault known node e → ⊥ }
{}
