//! Which roles of key parts may follow which at one path.
ghost use Rattle.std.specs.Prelude.{◌≡◌, IsTrue, ◌&&◌, IfNone, IfSome, List, [], ◌∷◌, ◌++◌, Some, true, false};
ghost use Rattle.std.specs.List.{list_all};
ghost use Rattle.keep_meaning.specs.State.{IsState};
ghost use Rattle.keep_types.specs.declared.role.Role.{Role};
ghost use Rattle.keep_meaning.specs.Rules.{allows, why_of};

use keep_syntax::Why;
use keep_types::Role;

/// Whether a mark of the first role lets one of the role `later` follow at its path.
pub fn allows(role: Role, later: Role) -> bool
    ensures { result ≡ allows role later }
{
    match role {
        Role::Through => matches!(later, Role::Through | Role::Define | Role::Dotted),
        Role::Define => matches!(later, Role::Through),
        Role::Element | Role::Past => matches!(later, Role::Element | Role::Past),
        Role::Dotted => matches!(later, Role::Through | Role::Dotted),
        Role::Value => false,
    }
}

/// The reason for refusing a mark of a role.
pub fn why_of(role: Role) -> Why
    ensures { result ≡ why_of role }
{
    match role {
        Role::Through => Why::NotATable,
        Role::Define => Why::DefinedTwice,
        Role::Element | Role::Past => Why::NotAnArray,
        Role::Dotted => Why::NotByDots,
        Role::Value => Why::DuplicateKey,
    }
}

/// The role that represents all marks so far and one more: it allows what they all allow.
fn joined(role: Role, later: Role) -> Role
    requires { IsTrue (allows role later) }
    ensures { (next : Role) → allows result next ≡ (allows role next && allows later next) }
{
    if role == Role::Through { later } else { role }
}

/// The state after one more mark of that role, or `None` where some mark so far does not allow it.
pub fn state_after(state: Option<Role>, role: Role) -> Option<Role>
    ensures refused { IfNone result
        ((roles : List Role) → IsState state roles → list_all (λ e. allows e role) roles ≡ false) }
    ensures allowed { IfSome result
        (λ next. (roles : List Role) → IsState state roles → list_all (λ e. allows e role) roles ≡ true) }
    ensures next { IfSome result
        (λ next. (roles : List Role) → IsState state roles → IsState (Some next) (roles ++ role ∷ [])) }
{
    match state {
        None => Some(role),
        Some(state) if allows(state, role) => Some(joined(state, role)),
        Some(_) => None,
    }
}
