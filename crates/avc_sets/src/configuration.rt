//! The configuration that an entry keeps.
ghost use Rattle.std.specs.Prelude.{◌≡◌, ◌≤◌, ◌++◌, ◌∷◌, [], All, length, vec_len, IfOk, OnOk};
ghost use Rattle.std.specs.List.{flat_map};
ghost use Rattle.avc_sets.specs.Configuration.{items_of, set_bytes, format_bytes, configuration};

use crate::Sps;
use crate::format::is_high;
use mp_ports::NoMemory;
use std::alloc::Global;

fn append_set(out: &mut Vec<u8>, set: &[u8]) -> Result<(), NoMemory>
    requires { length set.now ≤ 65535 }
    ensures { OnOk result (out.new.items ≡ out.old.items ++ set_bytes set.now) }
{
    out.extend_from_slice(&(set.len() as u16).to_be_bytes())?;
    out.extend_from_slice(set)?;
    Ok(())
}

fn append_format(out: &mut Vec<u8>, fields: &Sps) -> Result<(), NoMemory>
    ensures { OnOk result (out.new.items ≡ out.old.items ++ format_bytes fields.now) }
{
    if is_high(fields.profile) {
        let chroma = 252 + fields.chroma;
        let luma = 248 + (fields.luma_depth - 8);
        let depth = 248 + (fields.chroma_depth - 8);
        out.extend_from_slice(&[chroma, luma, depth, 0])?;
    }
    Ok(())
}

fn append_sets(out: &mut Vec<u8>, sets: &[Vec<u8>]) -> Result<(), NoMemory>
    requires { All (λ set. vec_len set ≤ 65535) sets.now }
    ensures { OnOk result (out.new.items ≡ out.old.items ++ flat_map set_bytes (items_of sets.now)) }
{
    for set in sets {
        append_set(out, set.as_slice())?;
    }
    Ok(())
}

/// The body of `avcC` (ISO/IEC 14496-15, 5.3.3.1) of the sequence parameter set whose fields these are, and of one to
/// 255 picture parameter sets.
#[tactic(auto, unfolding(crate::specs::Configuration::configuration))]
pub fn make_avcc(
    alloc: Global,
    sps: &[u8],
    fields: &Sps,
    pps: &[Vec<u8>],
) -> Result<Vec<u8>, NoMemory>
    requires sequence { length sps.now ≤ 65535 }
    requires some { 1 ≤ length pps.now }
    requires few { length pps.now ≤ 255 }
    requires pictures { All (λ set. vec_len set ≤ 65535) pps.now }
    ensures { IfOk result (λ body. body.items ≡ configuration sps.now fields.now (items_of pps.now)) }
{
    let mut body = Vec::new(alloc);
    body.extend_from_slice(&[1, fields.profile, fields.compat, fields.level, 255, 225])?;
    append_set(&mut body, sps)?;
    body.push(pps.len() as u8)?;
    append_sets(&mut body, pps)?;
    append_format(&mut body, fields)?;
    Ok(body)
}
