//! Where agents are and what they are run with.
ghost use Rattle.std.specs.Prelude.{◌≡◌, Some, None, IfSome, IfNone, false};

use crate::text::Text;
use std::alloc::{Allocator, Global};
use std::marker::Model;

/// Where agents are and what they are run with: the directory above `resource.d`, their search path, the program to run them
/// through, if any, and whether they get Pacemaker's own variables. OCF Resource Agent API 1.1, OCF_ROOT.
#[derive(Drop)]
pub struct Site<A: Allocator = Global> {
    root: Text<A>,
    path: Text<A>,
    via: Option<Text<A>>,
    meta: bool,
}

impl<A: Allocator> Model for Site<A> {
    ghost use Rattle.ocf_env.specs.Locations.{SiteView};

    ghost Value = { SiteView };

    ghost view = { λ s. record { root = s.root; path = s.path; via = s.via; meta = s.meta } };
}

impl<A: Allocator> Site<A> {
    /// The site with this root, search path and program to run agents through, if any. Agents get only the variables of the
    /// standard.
    pub fn new(root: Text<A>, path: Text<A>, via: Option<Text<A>>) -> Self
        ensures { result ≡ record { root = root; path = path; via = via; meta = false } }
    {
        Site {
            root,
            path,
            via,
            meta: false,
        }
    }

    /// The same site, with or without Pacemaker's own variables for agents.
    pub fn with_meta(self, meta: bool) -> Self
        ensures { result ≡ record self { meta = meta } }
    {
        Site { meta, ..self }
    }

    /// The directory above `resource.d`. OCF Resource Agent API 1.1, OCF_ROOT.
    pub fn root(&self) -> &str
        ensures { result.now ≡ self.now.root }
    {
        self.root.as_str()
    }

    /// The search path of agents, PATH.
    pub fn path(&self) -> &str
        ensures { result.now ≡ self.now.path }
    {
        self.path.as_str()
    }

    /// Whether agents get Pacemaker's own variables.
    pub fn meta(&self) -> bool
        ensures { result ≡ self.now.meta }
    {
        self.meta
    }

    /// The program that agents are run through, if any.
    pub fn via(&self) -> Option<&str>
        ensures known { IfSome result (λ via. self.now.via ≡ Some via.now) }
        ensures none { IfNone result (self.now.via ≡ None) }
    {
        match &self.via {
            Some(via) => Some(via.as_str()),
            None => None,
        }
    }
}
