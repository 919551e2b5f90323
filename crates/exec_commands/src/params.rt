//! Makes parameters from texts.
ghost use Rattle.std.specs.Prelude.{◌≡◌, ◌≢◌, None, Ok, Err, IfOk, IfErr, IsTrue};
ghost use Rattle.std.specs.List.{list_all};
ghost use Rattle.ocf_types.specs.Names.{is_param_name};
ghost use Rattle.ocf_model.specs.declared.refusal.Refusal.TheVariants.{Memory};
ghost use Rattle.exec_commands.specs.Keys.{TextPair, texts_seen, are_ascending};
ghost use Rattle.exec_commands.specs.Values.{are_names, params_of, valued_params};

use crate::texts::Texts;
use growth::Grows;
use ocf_model::Refusal;
use ocf_types::{PARAMS_LIMIT, ParamName, ParamValue, Params, ValueError};
use std::alloc::Global;

fn is_param_name(text: &str) -> bool
    ensures { result ≡ is_param_name text.now }
{
    ParamName::new(text.as_bytes()).is_ok()
}

fn have_names(members: &[(&str, &str)]) -> bool
    ensures { result ≡ list_all (λ (m : TextPair). is_param_name m.0.now) members.now }
{
    members.iter().all(|m| is_param_name(m.0))
}

#[tactic(auto, using(crate::proofs::ParamLemmas::names_seen))]
fn are_names(members: &[(&str, &str)]) -> bool
    ensures { result ≡ are_names (texts_seen members.now) }
{
    have_names(members)
}

#[tactic(auto, using(crate::proofs::ParamLemmas::too_many))]
fn valued_params(alloc: Global, members: &[(&str, &str)]) -> Result<Params, Refusal>
    requires names { IsTrue (are_names (texts_seen members.now)) }
    requires sorted { IsTrue (are_ascending None (texts_seen members.now)) }
    ensures ok { IfOk result (λ ps. valued_params (texts_seen members.now) ≡ Ok ps) }
    ensures err { IfErr result (λ e. e ≢ Memory → valued_params (texts_seen members.now) ≡ Err e) }
    ensures memory { IfErr result (λ e. e ≡ Memory → IsTrue ⟦<Global as Grows>⟧.refuses) }
{
    if members.len() > PARAMS_LIMIT {
        return Err(Refusal::BadValue);
    }
    let mut params = Params::new(alloc);
    for (name, text) in members {
        let name = match ParamName::new(name.as_bytes()) {
            Ok(name) => name,
            Err(_) => unreachable!(),
        };
        let value = match ParamValue::new(alloc, text.as_bytes()) {
            Ok(value) => value,
            Err(ValueError::BadValue) => return Err(Refusal::BadValue),
            Err(ValueError::Memory) => return Err(Refusal::Memory),
        };
        if params.push(name, value).is_err() {
            return Err(Refusal::Memory);
        }
    }
    let _ = params.as_slice();
    Ok(params)
}

/// The parameters with these names and values: `BadName` if a name is invalid, else `BadValue` if there are more than 64
/// or a value is invalid.
pub fn params_of(alloc: Global, texts: &Texts<'_>) -> Result<Params, Refusal>
    ensures ok { IfOk result (λ ps. params_of texts.now ≡ Ok ps) }
    ensures err { IfErr result (λ e. e ≢ Memory → params_of texts.now ≡ Err e) }
    ensures memory { IfErr result (λ e. e ≡ Memory → IsTrue ⟦<Global as Grows>⟧.refuses) }
{
    let members = texts.as_slice();
    if !are_names(members) {
        return Err(Refusal::BadName);
    }
    valued_params(alloc, members)
}
