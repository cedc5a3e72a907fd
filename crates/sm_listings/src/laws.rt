//! Which names are listed, as laws.

ghost use Rattle.std.specs.Prelude.{◌≡◌, ◌&&◌, ℕ, List, Ok};
ghost use Rattle.std.specs.List.{list_any};
ghost use Rattle.sm_values.specs.Contexts.{type_of};
ghost use Rattle.sm_values.specs.declared.class.Class.TheVariants.{ServiceManager};
ghost use Rattle.sm_values.specs.declared.perms.Perms.{Perms as ThePerms};
ghost use Rattle.sm_contexts.specs.Reading.{has_key, read};
ghost use Rattle.sm_policy.specs.Policy.{Policy as ThePolicy, allowed, label_of};
ghost use Rattle.sm_listings.specs.Named.{allowed_entries};

/// A key has a line exactly if the source is allowed the permission on the type of the key's label.
pub fn listed_if_allowed()
    ensures { (contexts : List ℕ) (policy : ThePolicy) (source : List ℕ) (perm : ThePerms) (name : List ℕ)
        → read contexts ≡ Ok policy.entries
        → list_any (has_key name) (allowed_entries policy source perm) ≡ (list_any (has_key name) policy.entries
        && allowed policy source (type_of (label_of policy name)) ServiceManager perm) }
{}
