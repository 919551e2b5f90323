//! Where agents are.
ghost use Rattle.std.specs.Prelude.{◌≡◌, IfOk, option_map};
ghost use Rattle.exec_host.specs.Sites.{once_site_of, site_of};

use exec_options::{OnceOptions, Options};
use growth::{Refused, text_of};
use ocf_env::{Site, Text};
use std::alloc::Global;

// The site in options of either kind.
#[derive(Clone, Copy)]
struct SitePaths<'a> {
    root: &'a str,
    path: &'a str,
    via: Option<&'a str>,
    meta_variables: bool,
}

fn text(alloc: Global, text: &str) -> Result<Text, Refused>
    ensures value { IfOk result (λ t. t ≡ text.now) }
{
    Ok(Text::new(text_of(alloc, text)?))
}

fn site_at(alloc: Global, location: SitePaths) -> Result<Site, Refused>
    ensures site { IfOk result
        (λ s. s ≡ record {
          root = location.entry.root.now;
          path = location.entry.path.now;
          via = option_map (λ t. t.now) location.entry.via;
          meta = location.entry.meta_variables;
        }) }
{
    let root = text(alloc, location.root)?;
    let path = text(alloc, location.path)?;
    let via = match location.via {
        Some(program) => Some(text(alloc, program)?),
        None => None,
    };
    Ok(Site::new(root, path, via).with_meta(location.meta_variables))
}

/// The site that the options name. It fails only where memory is refused.
pub fn site_of(alloc: Global, options: Options) -> Result<Site, Refused>
    ensures site { IfOk result (λ s. s ≡ site_of options.entry) }
{
    let location = SitePaths {
        root: options.root,
        path: options.path,
        via: options.via,
        meta_variables: options.meta_variables,
    };
    site_at(alloc, location)
}

/// The site for one action by itself.
pub fn site_of_once(alloc: Global, options: &OnceOptions) -> Result<Site, Refused>
    ensures site { IfOk result (λ s. s ≡ once_site_of options.now) }
{
    let location = SitePaths {
        root: options.root,
        path: options.path,
        via: options.via,
        meta_variables: options.meta_variables,
    };
    site_at(alloc, location)
}
