//! The settings of the header's templates.
ghost use Rattle.std.specs.Prelude.{◌≡◌, IfOk};
ghost use Rattle.std.specs.Result.{result_err};
ghost use Rattle.hal_device.specs.Templates.{default_settings, template_error};

use crate::device::HalDevice;
use cam_types::Settings;
use hal_device_model::CallError;
use metadata::{Template, template};

impl HalDevice {
    /// `construct_default_request_settings`: the settings of `still` for template 2, STILL_CAPTURE, else of `preview`.
    /// ENODEV where the device failed or is closed, ENOSYS where it isn't initialized, EINVAL where the template isn't
    /// from 1 to 6.
    pub fn default_settings(&self, template: u32) -> Result<Settings, CallError>
        ensures answer { result_err result ≡ template_error template self.now }
        ensures settings { IfOk result (λ settings. settings ≡ default_settings template) }
    {
        if self.is_over() {
            return Err(CallError::NoDevice);
        }
        if !self.initialized {
            return Err(CallError::WrongSequence);
        }
        if template == 0 || 6 < template {
            return Err(CallError::InvalidArgument);
        }
        Ok(settings_of(template))
    }
}

fn settings_of(number: u32) -> Settings
    ensures { result ≡ default_settings number }
{
    if number == 2 {
        template(Template::Still)
    } else {
        template(Template::Preview)
    }
}
