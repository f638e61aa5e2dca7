// Printed scores: how well a template of a face matches the columns of an image.
#![tactic(auto)]
