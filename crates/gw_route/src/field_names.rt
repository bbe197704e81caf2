//! The names of fields with more than ten letters. A reader that reads several of them proves with constants, and not with
//! the texts themselves; that each constant is its text stands in `proofs/FieldNames`.

/// The field `parentRefs`.
pub const PARENT_REFS: &str = "parentRefs";
/// The field `sectionName`.
pub const SECTION_NAME: &str = "sectionName";
/// The field `backendRefs`.
pub const BACKEND_REFS: &str = "backendRefs";
/// The field `queryParams`.
pub const QUERY_PARAMS: &str = "queryParams";
/// The field `statusCode`.
pub const STATUS_CODE: &str = "statusCode";
/// The field `replaceFullPath`.
pub const REPLACE_FULL_PATH: &str = "replaceFullPath";
/// The field `replacePrefixMatch`.
pub const REPLACE_PREFIX_MATCH: &str = "replacePrefixMatch";
/// The field `requestHeaderModifier`.
pub const REQUEST_HEADER_MODIFIER: &str = "requestHeaderModifier";
/// The field `responseHeaderModifier`.
pub const RESPONSE_HEADER_MODIFIER: &str = "responseHeaderModifier";
/// The field `requestRedirect`.
pub const REQUEST_REDIRECT: &str = "requestRedirect";
/// The field `urlRewrite`.
pub const URL_REWRITE: &str = "urlRewrite";
