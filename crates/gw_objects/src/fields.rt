//! The names of fields that have more than ten letters. Proofs open a literal letter by letter, and a constant not at all.

/// GatewayClass: spec.controllerName.
pub const CONTROLLER_NAME: &str = "controllerName";

/// GatewayClass: spec.parametersRef.
pub const PARAMETERS_REF: &str = "parametersRef";

/// Gateway: spec.gatewayClassName.
pub const GATEWAY_CLASS_NAME: &str = "gatewayClassName";

/// Listener: allowedRoutes.
pub const ALLOWED_ROUTES: &str = "allowedRoutes";

/// LabelSelector: matchLabels.
pub const MATCH_LABELS: &str = "matchLabels";

/// LabelSelector: matchExpressions.
pub const MATCH_EXPRESSIONS: &str = "matchExpressions";

/// ObjectMeta: creationTimestamp.
pub const CREATION_TIMESTAMP: &str = "creationTimestamp";

/// ServicePort: appProtocol.
pub const APP_PROTOCOL: &str = "appProtocol";

/// EndpointSlice: addressType.
pub const ADDRESS_TYPE: &str = "addressType";
