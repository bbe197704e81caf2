ghost use Rattle.gw_json.specs.Words.{Gives};
ghost use Rattle.gw_json.specs.Fields.{node_of};
ghost use Rattle.gw_route.specs.Filters as filters;
ghost use Rattle.gw_route.specs.SeenModifier.{seen_modifier};
ghost use Rattle.gw_route.specs.SeenFilter.{seen_filter};

use crate::field_names::{
    REPLACE_FULL_PATH, REPLACE_PREFIX_MATCH, REQUEST_HEADER_MODIFIER, REQUEST_REDIRECT,
    RESPONSE_HEADER_MODIFIER, STATUS_CODE, URL_REWRITE,
};
use crate::plain::{Edits, Filter, PathModifier, Redirect, Rewrite};
use gw_forms as forms;
use gw_json::{Cursor, Form, Number16, Port, Refusal};
use gw_text::{Field, Fields, Names, Text};
use std::alloc::Global;

/// A field to set or to add.
#[derive(Clone, Copy)]
pub struct FieldForm;

impl Form for FieldForm {
    type Value = Field;

    ghost seen = { λ value. value };

    ghost of = { λ _. filters.edited_of };

    #[tactic(auto, unfolding(crate::specs::Filters::edited_of))]
    fn read(&self, alloc: Global, at: &Cursor<'_>) -> Result<Field, Refusal> {
        Ok(Field {
            name: at.needed(alloc, "name", forms::Token)?,
            value: at.needed(alloc, "value", forms::FieldValue)?,
        })
    }
}

/// What is done to the fields of a message.
#[derive(Clone, Copy)]
pub struct EditsForm;

impl Form for EditsForm {
    type Value = Edits;

    ghost seen = { λ value. value };

    ghost of = { λ _. filters.edits_of };

    #[tactic(auto, unfolding(crate::specs::Filters::edits_of))]
    fn read(&self, alloc: Global, at: &Cursor<'_>) -> Result<Edits, Refusal> {
        Ok(Edits {
            set: Fields::from_vec(at.listed(alloc, "set", 16, FieldForm)?),
            add: Fields::from_vec(at.listed(alloc, "add", 16, FieldForm)?),
            remove: Names::from_vec(at.listed(alloc, "remove", 16, forms::Token)?),
        })
    }
}

#[tactic(auto, unfolding(crate::specs::Filters::modifier_by))]
fn modifier_by(alloc: Global, sort: &str, at: &Cursor<'_>) -> Result<PathModifier, Refusal>
    ensures { Gives seen_modifier result (filters.modifier_by sort.now (node_of at.now)) }
{
    match sort {
        "ReplaceFullPath" => Ok(PathModifier::ReplaceFullPath(at.needed(
            alloc,
            REPLACE_FULL_PATH,
            forms::Replacement,
        )?)),
        "ReplacePrefixMatch" => Ok(PathModifier::ReplacePrefixMatch(at.needed(
            alloc,
            REPLACE_PREFIX_MATCH,
            forms::Replacement,
        )?)),
        _ => Ok(PathModifier::Other(Text::of(alloc, sort)?)),
    }
}

/// What becomes of a path.
#[derive(Clone, Copy)]
pub struct ModifierForm;

impl Form for ModifierForm {
    ghost use Rattle.gw_text.specs.model.Filters.{PathModifier as Modifier};

    type Value = PathModifier;

    ghost Seen = { Modifier };

    ghost seen = { seen_modifier };

    ghost of = { λ _. filters.modifier_of };

    #[tactic(auto, unfolding(crate::specs::Filters::modifier_of))]
    fn read(&self, alloc: Global, at: &Cursor<'_>) -> Result<PathModifier, Refusal> {
        let sort = forms::needed_word(alloc, "type", at)?;
        modifier_by(alloc, sort, at)
    }
}

/// A redirect.
#[derive(Clone, Copy)]
pub struct RedirectForm;

impl Form for RedirectForm {
    type Value = Redirect;

    ghost seen = { λ value. value };

    ghost of = { λ _. filters.redirect_of };

    #[tactic(auto, unfolding(crate::specs::Filters::redirect_of))]
    fn read(&self, alloc: Global, at: &Cursor<'_>) -> Result<Redirect, Refusal> {
        Ok(Redirect {
            scheme: at.given(alloc, "scheme", forms::Word)?,
            hostname: at.given(alloc, "hostname", forms::PreciseHostname)?,
            path: at.given(alloc, "path", ModifierForm)?,
            port: at.given(alloc, "port", Port)?,
            status_code: at.given(
                alloc,
                STATUS_CODE,
                Number16 {
                    least: 100,
                    most: 599,
                },
            )?,
        })
    }
}

/// A rewrite.
#[derive(Clone, Copy)]
pub struct RewriteForm;

impl Form for RewriteForm {
    type Value = Rewrite;

    ghost seen = { λ value. value };

    ghost of = { λ _. filters.rewrite_of };

    #[tactic(auto, unfolding(crate::specs::Filters::rewrite_of))]
    fn read(&self, alloc: Global, at: &Cursor<'_>) -> Result<Rewrite, Refusal> {
        Ok(Rewrite {
            hostname: at.given(alloc, "hostname", forms::PreciseHostname)?,
            path: at.given(alloc, "path", ModifierForm)?,
        })
    }
}

#[tactic(auto, unfolding(crate::specs::Filters::filter_by))]
fn filter_by(alloc: Global, sort: &str, at: &Cursor<'_>) -> Result<Filter, Refusal>
    ensures { Gives seen_filter result (filters.filter_by sort.now (node_of at.now)) }
{
    match sort {
        "RequestHeaderModifier" => Ok(Filter::RequestHeaderModifier(at.needed(
            alloc,
            REQUEST_HEADER_MODIFIER,
            EditsForm,
        )?)),
        "ResponseHeaderModifier" => Ok(Filter::ResponseHeaderModifier(at.needed(
            alloc,
            RESPONSE_HEADER_MODIFIER,
            EditsForm,
        )?)),
        "RequestRedirect" => Ok(Filter::RequestRedirect(at.needed(
            alloc,
            REQUEST_REDIRECT,
            RedirectForm,
        )?)),
        "URLRewrite" => Ok(Filter::UrlRewrite(at.needed(alloc, URL_REWRITE, RewriteForm)?)),
        _ => Ok(Filter::Other(Text::of(alloc, sort)?)),
    }
}

/// A filter.
#[derive(Clone, Copy)]
pub struct FilterForm;

impl Form for FilterForm {
    ghost use Rattle.gw_text.specs.model.Filters.{Filter as Plain};

    type Value = Filter;

    ghost Seen = { Plain };

    ghost seen = { seen_filter };

    ghost of = { λ _. filters.filter_of };

    #[tactic(auto, unfolding(crate::specs::Filters::filter_of))]
    fn read(&self, alloc: Global, at: &Cursor<'_>) -> Result<Filter, Refusal> {
        let sort = forms::needed_word(alloc, "type", at)?;
        filter_by(alloc, sort, at)
    }
}
