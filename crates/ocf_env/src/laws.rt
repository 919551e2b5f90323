//! Lemmas about the environment, each the contract of a function that does nothing.
ghost use Rattle.std.specs.Prelude.{◌≡◌, ◌↔◌, ℕ, false, List, Contains};
ghost use Rattle.ocf_types.specs.Kinds.{Registration};
ghost use Rattle.ocf_types.specs.Params.{AreParams};
ghost use Rattle.ocf_types.specs.declared.action.Task.{Task};
ghost use Rattle.ocf_types.specs.declared.operation.Running.{Running};
ghost use Rattle.ocf_env.specs.MetaVariables.{IsGiven};
ghost use Rattle.ocf_env.specs.Locations.{SiteView};
ghost use Rattle.ocf_env.specs.Variables.{IsVariable, reskey};

/// A parameter shadows no other variable: a name that begins with OCF_RESKEY_ is a parameter's, and no name has two values.
/// OCF Resource Agent API 1.1, OCF_RESKEY_.
pub fn lemma_no_shadow()
    ensures parameters { (site : SiteView) (r : Registration) (task : Task) (name value : List ℕ)
        → IsVariable site r task (reskey name) value → Contains r.params (name, value) }
    ensures one_value { (site : SiteView) (r : Registration) (task : Task) (name v w : List ℕ)
        → AreParams r.params
        → IsVariable site r task name v → IsVariable site r task name w → v ≡ w }
{}

/// Without Pacemaker's variables an action gets exactly its own. With them no name has two values, and a parameter with one
/// of their names keeps its value.
pub fn lemma_metadata_variables()
    ensures without { (site : SiteView) (r : Registration) (running : Running) (name value : List ℕ)
        → site.meta ≡ false
        → IsGiven site r running name value ↔ IsVariable site r running.task name value }
    ensures one_value { (site : SiteView) (r : Registration) (running : Running) (name v w : List ℕ)
        → AreParams r.params
        → IsGiven site r running name v → IsGiven site r running name w → v ≡ w }
    ensures parameters { (site : SiteView) (r : Registration) (running : Running)
        (name own value : List ℕ) → AreParams r.params
        → Contains r.params (name, own) → IsGiven site r running (reskey name) value → value ≡ own }
{}
